// Formulas of what the children of an installed node provide to it.
ghost use Rattle.std.specs.Prelude.{◌≡◌, IfOk};
ghost use Rattle.clause_formulas.specs.Rules.{both_of, fact};
ghost use Rattle.graph_formulas.specs.Facts.{has_virtuals};
ghost use Rattle.graph_formulas.specs.Kept.{kinds_rule, provided_rule};
ghost use Rattle.word_formulas.specs.Builders.{plain_said};

use crate::kinds::kinds_formula;
use crate::variant_lists::push_just;
use clause_formulas::Formula;
use literal_table::LiteralTable;
use plain_data::Word;
use reuse_db::Dependency;
use std::alloc::{AllocError, Global};
use word_formulas::{Scribe, each};

/// The edge names just these virtuals.
fn has_virtuals(
    alloc: Global,
    table: &LiteralTable,
    name: &str,
    child: &str,
    virtuals: &[Word],
) -> Result<Formula, AllocError>
    ensures { IfOk result (λ formula. formula
        ≡ plain_said table.now (fact (has_virtuals name.now child.now virtuals.now))) }
{
    let mut parts = Vec::new(alloc);
    push_just(alloc, &mut parts, table.virtuals(name, child), virtuals)?;
    Formula::all(alloc, parts)
}

/// The edge has the kinds and the virtuals of the dependency.
pub(crate) fn recorded_edge(
    alloc: Global,
    table: &LiteralTable,
    name: &str,
    child: &str,
    dependency: &Dependency,
) -> Result<Formula, AllocError>
    ensures { IfOk result (λ formula. formula ≡ plain_said table.now
        (both_of (kinds_rule name.now child.now dependency.now.kinds)
        (fact (has_virtuals name.now child.now dependency.now.virtuals)))) }
{
    let kinds = kinds_formula(alloc, table, name, child, dependency.kinds)?;
    let virtuals = has_virtuals(alloc, table, name, child, dependency.virtuals.values())?;
    Formula::both(alloc, kinds, virtuals)
}

/// The package is the provider of each of these virtuals.
pub(crate) fn provided_formula(
    alloc: Global,
    table: &LiteralTable,
    provider: &str,
    virtuals: &[Word],
) -> Result<Formula, AllocError>
    ensures { IfOk result (λ formula. formula
        ≡ plain_said table.now (provided_rule provider.now virtuals.now)) }
{
    each(alloc, virtuals, |name| {
        Scribe { alloc, table }.provides_as(name.as_str(), provider)
    })
}
