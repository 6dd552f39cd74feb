// Formulas of the externals of the settings.
ghost use Rattle.std.specs.Prelude.{◌≡◌, IfOk, slice_get};
ghost use Rattle.std.specs.Option.{option_copied};
ghost use Rattle.problem.specs.Problems.{package_entry_of, externals_in};
ghost use Rattle.graph_rules.specs.Kept.{external_node};
ghost use Rattle.graph_formulas.specs.Lists.{one_keeps};
ghost use Rattle.graph_formulas.specs.Kept.{same_rule};
ghost use Rattle.word_formulas.specs.Builders.{plain_said};

use crate::attributes::same_formula;
use clause_formulas::Formula;
use literal_table::LiteralTable;
use plain_data::Word;
use problem::{Problem, entry_of};
use rule_checks::external_node;
use site_settings::ExternalEntry;
use std::alloc::{AllocError, Global};
use word_formulas::Scribe;

/// The external of the name at a place of the settings.
fn external_at<'a>(problem: &'a Problem, name: &str, place: u64) -> Option<&'a ExternalEntry>
    ensures { option_copied result
        ≡ slice_get (externals_in (package_entry_of problem.now name.now)) place }
{
    match entry_of(problem, name) {
        Some(entry) => entry.externals.as_slice().get(place as usize),
        None => None,
    }
}

fn same_external(
    alloc: Global,
    problem: &Problem,
    table: &LiteralTable,
    name: &Word,
    place: u64,
    entry: &ExternalEntry,
) -> Result<Formula, AllocError>
    ensures { IfOk result (λ formula. formula ≡ plain_said table.now
        (same_rule name.now (external_node problem.now name.now place entry.now))) }
{
    let node = external_node(alloc, problem, name, place, entry)?;
    same_formula(alloc, table, name.as_str(), &node)
}

/// The node of the name is that of the external at a place of the settings.
pub(crate) fn listed_external(
    alloc: Global,
    problem: &Problem,
    table: &LiteralTable,
    name: &Word,
    place: u64,
) -> Result<Formula, AllocError>
    ensures { IfOk result (λ formula. formula ≡ plain_said table.now
        (one_keeps (slice_get (externals_in (package_entry_of problem.now name.now)) place)
        (λ entry. same_rule name.now (external_node problem.now name.now place entry)))) }
{
    match external_at(problem, name.as_str(), place) {
        Some(entry) => same_external(alloc, problem, table, name, place, entry),
        None => Ok(Scribe { alloc, table }.given(false)),
    }
}
