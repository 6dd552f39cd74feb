//! The rows of dependencies of a package, found by the names that they ask for.
ghost use Rattle.std.specs.Prelude.{◌≡◌, map, filter, IfOk};
ghost use Rattle.keyed_lists.specs.Lent.{lent};
ghost use Rattle.problem.specs.Problems.{depends_at};
ghost use Rattle.graph_formulas.specs.Edges.{names_virtual};
ghost use Rattle.rule_formulas.specs.Named.{named_entries, AreNamed};

use keyed_lists::TextIndex;
use problem::{Problem, depends_at};
use recipe_data::DependRow;
use std::alloc::{AllocError, Global};
use std::marker::Model;

// Each row that has a name, behind it.
fn named_entries<'a>(
    alloc: Global,
    rows: &'a [DependRow],
) -> Result<Vec<(&'a str, &'a DependRow)>, AllocError>
    ensures { IfOk result (λ entries. lent entries.items ≡ named_entries rows.now) }
{
    let mut entries = Vec::new(alloc);
    for row in rows {
        if let Some(name) = &row.part.name {
            entries.push((name.as_str(), row))?;
        }
    }
    Ok(entries)
}

fn by_name<'a>(alloc: Global, rows: &'a [DependRow]) -> Result<TextIndex<'a, DependRow>, AllocError>
    ensures { IfOk result (AreNamed rows.now) }
{
    let entries = named_entries(alloc, rows)?;
    TextIndex::new(entries)
}

fn rows_in<'a>(
    alloc: Global,
    entries: &[(&'a str, &'a DependRow)],
) -> Result<Vec<&'a DependRow>, AllocError>
    ensures { IfOk result (λ rows. map (λ row. row.now) rows.items
        ≡ map (λ e. e.1) (lent entries.now)) }
{
    let mut rows = Vec::new(alloc);
    for entry in entries {
        rows.push(entry.1)?;
    }
    Ok(rows)
}

/// The rows of dependencies of a package, found by the names that they ask for; seen as the problem
/// and the package.
#[derive(Drop)]
pub(crate) struct NamedRows<'a> {
    problem: &'a Problem,
    name: &'a str,
    index: TextIndex<'a, DependRow>,
}

impl<'a> Model for NamedRows<'a> {
    ghost use Rattle.graph_core.specs.Graphs.{Text};
    ghost use Rattle.problem.specs.Problems.{Problem, depends_at};
    ghost use Rattle.rule_formulas.specs.Named.{AreNamed};

    ghost Value = { Problem × Text };

    ghost view = { λ rows. (rows.problem.now, rows.name.now) };

    ghost invariant = { λ rows. AreNamed (depends_at rows.problem.now rows.name.now) rows.index };
}

impl<'a> NamedRows<'a> {
    /// Takes n log n comparisons for n rows.
    pub(crate) fn new(
        alloc: Global,
        problem: &'a Problem,
        name: &'a str,
    ) -> Result<NamedRows<'a>, AllocError>
        ensures { IfOk result (λ rows. rows ≡ (problem.now, name.now)) }
    {
        let index = by_name(alloc, depends_at(problem, name))?;
        Ok(NamedRows {
            problem,
            name,
            index,
        })
    }

    /// The package's name.
    pub(crate) fn name(&self) -> &'a str
        ensures { result.now ≡ self.now.1 }
    {
        self.name
    }

    /// The rows that ask for the virtual, in the order of the recipe. None asks for a name that is
    /// no virtual.
    pub(crate) fn asking(
        &self,
        alloc: Global,
        virtual_name: &str,
    ) -> Result<Vec<&'a DependRow>, AllocError>
        ensures { IfOk result (λ found. map (λ row. row.now) found.items
            ≡ filter (names_virtual self.now.0 virtual_name.now) (depends_at self.now.0 self.now.1)) }
    {
        let world = self.problem.world();
        if world.is_virtual(virtual_name) {
            rows_in(alloc, self.index.of(virtual_name))
        } else {
            Ok(Vec::new(alloc))
        }
    }
}
