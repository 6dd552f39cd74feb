//! The lists of all criteria.
ghost use Rattle.std.specs.Prelude.{◌≡◌, ◌++◌, ◌∷◌, [], true, false, map, IfOk, OnOk};
ghost use Rattle.literal_table.specs.Tables.{block_of};
ghost use Rattle.cost_terms.specs.Terms.{terms_of};
ghost use Rattle.cost_terms.specs.Sums.{part_terms, number_terms, cost_terms};
ghost use Rattle.term_builder.specs.Held.{held_in};

use crate::blocks::criterion_terms;
use clause_formulas::Defined;
use cost_terms::{Weighted, in_part};
use graph_rules::{CRITERIA, Criterion, Summed};
use literal_table::LiteralTable;
use plain_data::{List, Word};
use problem::Problem;
use std::alloc::{AllocError, Global};

fn push_all(terms: &mut Vec<Weighted>, more: Vec<Weighted>) -> Result<(), AllocError>
    ensures { OnOk result (terms.new.items ≡ terms.old.items ++ more.items) }
{
    for term in more {
        terms.push(term)?;
    }
    Ok(())
}

// What the node of a name adds, in the part of the nodes to build, or of the others.
fn push_part(
    alloc: Global,
    terms: &mut Vec<Weighted>,
    built: bool,
    criterion: Criterion,
    problem: &Problem,
    table: &LiteralTable,
    held: &[(Word, List<Defined>)],
    name: &str,
) -> Result<(), AllocError>
    ensures { OnOk result (terms.new.items ≡ terms.old.items
        ++ part_terms built (terms_of problem.now table.now (held_in held.now) criterion)
        (block_of table.now name.now)) }
{
    match table.block(name) {
        Some(block) => {
            let more = criterion_terms(alloc, criterion, problem, table, held, block)?;
            let part = in_part(alloc, built, block.origins.as_slice(), more)?;
            push_all(terms, part)
        }
        None => Ok(()),
    }
}

// One number of the vector.
fn number_terms(
    alloc: Global,
    built: bool,
    criterion: Criterion,
    problem: &Problem,
    table: &LiteralTable,
    held: &[(Word, List<Defined>)],
    order: &[Word],
) -> Result<Vec<Weighted>, AllocError>
    ensures { IfOk result (λ terms. terms.items ≡ number_terms built table.now order.now
        (terms_of problem.now table.now (held_in held.now) criterion)) }
{
    let mut terms = Vec::new(alloc);
    for name in order {
        let name = name.as_str();
        push_part(
            alloc, &mut terms, built, criterion, problem, table, held, name,
        )?;
    }
    Ok(terms)
}

// A number for each criterion.
fn push_numbers(
    alloc: Global,
    lists: &mut Vec<List<Weighted>>,
    built: bool,
    criteria: &[Criterion],
    problem: &Problem,
    table: &LiteralTable,
    held: &[(Word, List<Defined>)],
    order: &[Word],
) -> Result<(), AllocError>
    ensures { OnOk result (lists.new.items ≡ lists.old.items
        ++ map (λ criterion. number_terms built table.now order.now
        (terms_of problem.now table.now (held_in held.now) criterion)) criteria.now) }
{
    for criterion in criteria {
        let terms = number_terms(alloc, built, *criterion, problem, table, held, order)?;
        lists.push(List::from_vec(terms))?;
    }
    Ok(())
}

/// The lists of terms whose sums are the numbers of the cost vector, the first to compare first.
///
/// `held` has, for each name of the table, the values of the conditions of the package's
/// definitions of variants, in the order of these; `order` has the names of the table in the order
/// in which their terms are to stand. An error is want of memory.
pub fn cost_terms(
    alloc: Global,
    problem: &Problem,
    table: &LiteralTable,
    held: &[(Word, List<Defined>)],
    order: &[Word],
) -> Result<Vec<List<Weighted>>, AllocError>
    ensures { IfOk result (λ lists. lists.items
        ≡ cost_terms problem.now table.now (held_in held.now) order.now) }
{
    let mut lists = Vec::new(alloc);
    let node = [Criterion::All(Summed::Node)];
    push_numbers(
        alloc, &mut lists, true, &CRITERIA, problem, table, held, order,
    )?;
    push_numbers(alloc, &mut lists, true, &node, problem, table, held, order)?;
    push_numbers(
        alloc, &mut lists, false, &CRITERIA, problem, table, held, order,
    )?;
    Ok(lists)
}
