// The row of the rule of providers.
ghost use Rattle.std.specs.Prelude.{◌≡◌, IfOk, map};
ghost use Rattle.clause_formulas.specs.Statements.{all_statements};
ghost use Rattle.graph_formulas.specs.Built.{provider_rule};
ghost use Rattle.node_formulas.specs.Rows.{provided_said, providers_said, provided_row};
ghost use Rattle.word_formulas.specs.Builders.{plain_said};

use crate::names::each_virtual;
use clause_formulas::Formula;
use clause_store::Lit;
use literal_table::LiteralTable;
use plain_data::Word;
use problem::Problem;
use std::alloc::{AllocError, Global};
use word_formulas::{Scribe, each};

// The node of the package is there, and may provide the virtual.
fn provider_formula(
    alloc: Global,
    problem: &Problem,
    table: &LiteralTable,
    virtual_name: &str,
    name: &str,
) -> Result<Formula, AllocError>
    ensures { IfOk result (λ formula. formula
        ≡ plain_said table.now (provider_rule problem.now (virtual_name.now, name.now))) }
{
    let world = problem.world();
    Scribe { alloc, table }.provides_formula(&world, name, virtual_name, &None)
}

fn provider_at(
    alloc: Global,
    problem: &Problem,
    table: &LiteralTable,
    virtual_name: &str,
    choice: &(Word, Lit),
) -> Result<Formula, AllocError>
    ensures { IfOk result (λ formula. formula
        ≡ provided_said table.now virtual_name.now choice.now.0
        (plain_said table.now (provider_rule problem.now (virtual_name.now, choice.now.0)))) }
{
    let name = choice.0.as_str();
    let chosen = Scribe { alloc, table }.provides_as(virtual_name, name)?;
    let kept = provider_formula(alloc, problem, table, virtual_name, name)?;
    Formula::implies(alloc, chosen, kept)
}

fn providers_in(
    alloc: Global,
    problem: &Problem,
    table: &LiteralTable,
    virtual_name: &str,
    packages: &[(Word, Lit)],
) -> Result<Formula, AllocError>
    ensures { IfOk result (λ formula. formula ≡ all_statements (map
        (λ c. provided_said table.now virtual_name.now c.0
        (plain_said table.now (provider_rule problem.now (virtual_name.now, c.0)))) packages.now)) }
{
    each(alloc, packages, |choice| {
        provider_at(alloc, problem, table, virtual_name, choice)
    })
}

fn providers_at(
    alloc: Global,
    problem: &Problem,
    table: &LiteralTable,
    virtual_name: &Word,
) -> Result<Formula, AllocError>
    ensures { IfOk result (λ formula. formula ≡ providers_said table.now
        (λ p. plain_said table.now (provider_rule problem.now p)) virtual_name.now) }
{
    let virtual_name = virtual_name.as_str();
    let packages = table.packages(virtual_name);
    providers_in(alloc, problem, table, virtual_name, packages)
}

/// Each package that provides a virtual has a node that may.
pub fn provider_row(
    alloc: Global,
    problem: &Problem,
    table: &LiteralTable,
) -> Result<Formula, AllocError>
    ensures { IfOk result (λ formula. formula ≡ provided_row table.now
        (λ p. plain_said table.now (provider_rule problem.now p))) }
{
    each_virtual(alloc, table, |virtual_name| {
        providers_at(alloc, problem, table, virtual_name)
    })
}
