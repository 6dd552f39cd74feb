//! Rows of rules over conditions, at all names of a table.
ghost use Rattle.std.specs.Prelude.{◌≡◌, IfOk};
ghost use Rattle.graph_formulas.specs.Variants.{variants_rule};
ghost use Rattle.graph_formulas.specs.Edges.{extra_edges_rule};
ghost use Rattle.graph_formulas.specs.Laws.{virtuals_on, variants_of};
ghost use Rattle.literal_table.specs.Tables.{children_of};
ghost use Rattle.graph_formulas.specs.Terms.{where_built};
ghost use Rattle.graph_formulas.specs.Words.{names_for};
ghost use Rattle.rule_formulas.specs.Terms.{plain_term};
ghost use Rattle.problem_formulas.specs.Rows.{variant_row, extra_row, used_row, together_row, together_said};

use clause_formulas::Formula;
use literal_table::LiteralTable;
use node_formulas::{each_name, each_virtual};
use plain_data::Word;
use problem::Problem;
use rule_formulas::{
    MetConditions, Scribe, extra_edges_formula, together_formula, used_formula, variants_formula,
};
use std::alloc::{AllocError, Global};

fn variants_at<C: MetConditions>(
    alloc: Global,
    problem: &Problem,
    table: &LiteralTable,
    conditions: &C,
    name: &Word,
) -> Result<Formula, AllocError>
    ensures { IfOk result (λ formula. formula ≡ plain_term table.now (C.condition_of conditions.now)
        (where_built name.now (variants_rule problem.now
        (variants_of table.now name.now) name.now))) }
{
    let rule = variants_formula(alloc, problem, table, conditions, name.as_str())?;
    Scribe { alloc, table }.where_built(name.as_str(), rule)
}

/// The variants of all nodes to build.
pub(crate) fn variant_row<C: MetConditions>(
    alloc: Global,
    problem: &Problem,
    table: &LiteralTable,
    conditions: &C,
) -> Result<Formula, AllocError>
    ensures { IfOk result (λ formula. formula
        ≡ variant_row problem.now table.now (C.condition_of conditions.now)) }
{
    each_name(
        alloc,
        table,
        |name| variants_at(alloc, problem, table, conditions, name),
    )
}

fn extra_at<C: MetConditions>(
    alloc: Global,
    problem: &Problem,
    table: &LiteralTable,
    conditions: &C,
    name: &Word,
) -> Result<Formula, AllocError>
    ensures { IfOk result (λ formula. formula ≡ plain_term table.now (C.condition_of conditions.now)
        (where_built name.now (extra_edges_rule problem.now (names_for table.now)
        (virtuals_on table.now name.now) (children_of table.now name.now) name.now))) }
{
    let rule = extra_edges_formula(alloc, problem, table, conditions, name.as_str())?;
    Scribe { alloc, table }.where_built(name.as_str(), rule)
}

/// The edges of all nodes to build.
pub(crate) fn extra_row<C: MetConditions>(
    alloc: Global,
    problem: &Problem,
    table: &LiteralTable,
    conditions: &C,
) -> Result<Formula, AllocError>
    ensures { IfOk result (λ formula. formula
        ≡ extra_row problem.now table.now (C.condition_of conditions.now)) }
{
    each_name(
        alloc,
        table,
        |name| extra_at(alloc, problem, table, conditions, name),
    )
}

/// The providers of all virtuals.
pub(crate) fn used_row(alloc: Global, table: &LiteralTable) -> Result<Formula, AllocError>
    ensures { IfOk result (λ formula. formula ≡ used_row table.now) }
{
    each_virtual(alloc, table, |name| used_formula(alloc, table, name))
}

/// The providers of one virtual by directives that name several.
#[tactic(auto, unfolding(crate::specs::Rows::together_said))]
fn together_at(
    alloc: Global,
    problem: &Problem,
    table: &LiteralTable,
    name: &Word,
) -> Result<Formula, AllocError>
    ensures { IfOk result (λ formula. formula ≡ together_said problem.now table.now name.now) }
{
    together_formula(alloc, problem, table, name)
}

/// The providers of all virtuals by directives that name several.
pub(crate) fn together_row(
    alloc: Global,
    problem: &Problem,
    table: &LiteralTable,
) -> Result<Formula, AllocError>
    ensures { IfOk result (λ formula. formula ≡ together_row problem.now table.now) }
{
    each_virtual(
        alloc,
        table,
        |name| together_at(alloc, problem, table, name),
    )
}
