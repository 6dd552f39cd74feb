//! The walk over a table's edges.
ghost use Rattle.std.specs.Prelude.{◌≡◌, ◌++◌, ◌-◌, ◌+◌, map, not, IfOk, OnOk, if◌then◌else◌};
ghost use Rattle.std.specs.List.{fold, position_or_len};
ghost use Rattle.std.specs.Str.{bytes_eq};
ghost use Rattle.condition_rules.specs.Words.{is_one_text};
ghost use Rattle.literal_table.specs.Tables.{block_name, table_names};
ghost use Rattle.ranked_costs.specs.Walks.{without_name, visit, first_walk, post_order};
ghost use Rattle.ranked_costs.specs.Steps.{walk_at, visit_all};

use literal_table::{Block, EdgeLits, LiteralTable};
use plain_data::{Duplicate, Word};
use std::alloc::{AllocError, Global};

// The place of a name, or the number of names.
fn place_of(names: &[Word], name: &str) -> usize
    ensures { result ≡ position_or_len (bytes_eq name.now) names.now }
{
    names
        .iter()
        .take_while(|other| !(name == other.as_str()))
        .count()
}

// A name counts as deep as its edge leads from the parent, and else not at all.
fn depth(edge: &EdgeLits, parent: &str, more: usize) -> usize
    ensures { result ≡ (if bytes_eq edge.now.parent parent.now then more else 0) }
{
    if edge.parent.as_str() == parent {
        more
    } else {
        0
    }
}

// Enters a name that is still to be entered, visits what its edges lead to, and leaves it: `rest`
// loses it, and `left` has it behind its children. Calls go no deeper than `fuel`.
fn visit(
    alloc: Global,
    fuel: usize,
    table: &LiteralTable,
    rest: &mut Vec<Word>,
    left: &mut Vec<Word>,
    name: &str,
) -> Result<(), AllocError>
    ensures { OnOk result (walk_at rest.new.items left.new.items
        ≡ visit fuel table.now (walk_at rest.old.items left.old.items) name.now) }
{
    if fuel == 0 {
        return Ok(());
    }
    let place = place_of(rest.as_slice(), name);
    if place >= rest.len() {
        return Ok(());
    }
    let word = rest.remove(place);
    for edge in table.edges() {
        visit(
            alloc,
            depth(edge, name, fuel - 1),
            table,
            rest,
            left,
            edge.child.as_str(),
        )?;
    }
    left.push(word)?;
    Ok(())
}

fn names(alloc: Global, blocks: &[Block]) -> Result<Vec<Word>, AllocError>
    ensures { IfOk result (λ names. names.items ≡ map block_name blocks.now) }
{
    let mut names = Vec::new(alloc);
    for block in blocks {
        names.push(block.name.duplicate(alloc)?)?;
    }
    Ok(names)
}

// All roots, in their order.
fn visit_roots(
    alloc: Global,
    fuel: usize,
    table: &LiteralTable,
    rest: &mut Vec<Word>,
    left: &mut Vec<Word>,
    roots: &[Word],
) -> Result<(), AllocError>
    ensures { OnOk result (walk_at rest.new.items left.new.items
        ≡ fold (visit fuel table.now) (walk_at rest.old.items left.old.items) roots.now) }
{
    for root in roots {
        visit(alloc, fuel, table, rest, left, root.as_str())?;
    }
    Ok(())
}

fn push_all(left: &mut Vec<Word>, rest: Vec<Word>) -> Result<(), AllocError>
    ensures { OnOk result (left.new.items ≡ left.old.items ++ rest.items) }
{
    for name in rest {
        left.push(name)?;
    }
    Ok(())
}

/// The names of the table, children before parents.
pub fn post_order(
    alloc: Global,
    table: &LiteralTable,
    roots: &[Word],
) -> Result<Vec<Word>, AllocError>
    ensures { IfOk result (λ order. order.items ≡ post_order table.now roots.now) }
{
    let mut rest = names(alloc, table.blocks())?;
    let mut left = Vec::new(alloc);
    visit_roots(
        alloc,
        table.blocks().len() + 1,
        table,
        &mut rest,
        &mut left,
        roots,
    )?;
    push_all(&mut left, rest)?;
    Ok(left)
}
