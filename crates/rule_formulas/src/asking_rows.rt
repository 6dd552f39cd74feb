//! The rows of dependencies of a package, each with the packages that it may ask for.
ghost use Rattle.std.specs.Prelude.{◌≡◌, map, IfOk};
ghost use Rattle.std.specs.List.{list_any};
ghost use Rattle.std.specs.Option.{option_and_then, option_copied};
ghost use Rattle.std.specs.Str.{bytes_eq};
ghost use Rattle.condition_rules.specs.Words.{is_some_and};
ghost use Rattle.problem.specs.Problems.{depends_at, world_of};
ghost use Rattle.rule_formulas.specs.Asking.{packages_asked, asking_row, may_name};

use clause_store::Lit;
use condition_rules::World;
use literal_table::LiteralTable;
use plain_data::Word;
use problem::{Problem, depends_at};
use recipe_data::DependRow;
use std::alloc::{AllocError, Global};
use std::marker::Model;

/// A row of dependencies, with the packages that may provide the virtual that it names.
#[derive(Drop)]
pub(crate) struct AskingRow<'a> {
    row: &'a DependRow,
    /// None where it names no virtual.
    packages: Option<&'a [(Word, Lit)]>,
}

impl<'a> Model for AskingRow<'a> {
    ghost use Rattle.std.specs.Prelude.{Option};
    ghost use Rattle.std.specs.Option.{option_copied};
    ghost use Rattle.graph_core.specs.Graphs.{Text};
    ghost use Rattle.recipe_data.specs.declared.recipe.DependRow.{DependRow};
    ghost use Rattle.literal_table.specs.Choices.{Choices};

    ghost Value = { DependRow × Option (Choices Text) };

    ghost view = { λ asking. (asking.row.now, option_copied asking.packages) };
}

impl<'a> AskingRow<'a> {
    fn new(problem: &'a Problem, table: &'a LiteralTable, row: &'a DependRow) -> AskingRow<'a>
        ensures { result ≡ asking_row problem.now table.now row.now }
    {
        let packages = packages_for(problem, table, row);
        AskingRow { row, packages }
    }

    pub(crate) fn row(&self) -> &'a DependRow
        ensures { result.now ≡ self.now.0 }
    {
        self.row
    }

    /// The row may ask for this child, by its name or by a virtual.
    pub(crate) fn may_name(&self, child: &str) -> bool
        ensures { result ≡ may_name self.now.1 self.now.0.part.name child.now }
    {
        match self.packages {
            Some(packages) => offers(packages, child),
            None => is_named(self.row, child),
        }
    }
}

/// The name is one of these choices.
fn offers(choices: &[(Word, Lit)], name: &str) -> bool
    ensures { result ≡ list_any (λ choice. bytes_eq name.now choice.0) choices.now }
{
    choices.iter().any(|choice| name == choice.0.as_str())
}

/// The row asks for this name.
fn is_named(row: &DependRow, name: &str) -> bool
    ensures { result ≡ is_some_and row.now.part.name (λ asked. bytes_eq asked name.now) }
{
    match &row.part.name {
        Some(asked) => asked.as_str() == name,
        None => false,
    }
}

/// The packages that may provide the name: none are given where it is no virtual.
fn packages_asked<'a>(
    world: &World,
    table: &'a LiteralTable,
    asked: &str,
) -> Option<&'a [(Word, Lit)]>
    ensures { option_copied result ≡ packages_asked world.now table.now asked.now }
{
    if world.is_virtual(asked) {
        Some(table.packages(asked))
    } else {
        None
    }
}

fn packages_for<'a>(
    problem: &Problem,
    table: &'a LiteralTable,
    row: &DependRow,
) -> Option<&'a [(Word, Lit)]>
    ensures { option_copied result
        ≡ option_and_then (packages_asked (world_of problem.now) table.now) row.now.part.name }
{
    let world = problem.world();
    match &row.part.name {
        Some(asked) => packages_asked(&world, table, asked.as_str()),
        None => None,
    }
}

/// The rows of the name. Whether a row names a virtual is looked up once, and not again for each
/// child and kind.
pub(crate) fn asking_rows<'a>(
    alloc: Global,
    problem: &'a Problem,
    table: &'a LiteralTable,
    name: &str,
) -> Result<Vec<AskingRow<'a>>, AllocError>
    ensures { IfOk result (λ rows. rows.items
        ≡ map (asking_row problem.now table.now) (depends_at problem.now name.now)) }
{
    let mut rows = Vec::new(alloc);
    for row in depends_at(problem, name) {
        rows.push(AskingRow::new(problem, table, row))?;
    }
    Ok(rows)
}
