// The rows of the rules of nodes to build.
ghost use Rattle.std.specs.Prelude.{◌≡◌, IfOk};
ghost use Rattle.graph_formulas.specs.Built.{buildable_rule, version_rule, compiler_rule, machine_rule};
ghost use Rattle.node_formulas.specs.Rows.{built_said, built_row};
ghost use Rattle.word_formulas.specs.Builders.{plain_said};

use crate::names::each_name;
use clause_formulas::Formula;
use literal_table::LiteralTable;
use plain_data::Word;
use problem::Problem;
use std::alloc::{AllocError, Global};
use word_formulas::Scribe;

fn buildable_at(
    alloc: Global,
    problem: &Problem,
    table: &LiteralTable,
    name: &Word,
) -> Result<Formula, AllocError>
    ensures { IfOk result (λ formula. formula ≡ built_said table.now name.now
        (plain_said table.now (buildable_rule problem.now name.now))) }
{
    let name = name.as_str();
    let rule = Scribe { alloc, table }.buildable_formula(problem, name);
    Scribe { alloc, table }.where_built(name, rule)
}

/// Nodes to build have a recipe, and may be built.
pub fn buildable_row(
    alloc: Global,
    problem: &Problem,
    table: &LiteralTable,
) -> Result<Formula, AllocError>
    ensures { IfOk result (λ formula. formula ≡ built_row table.now
        (λ name. plain_said table.now (buildable_rule problem.now name))) }
{
    each_name(
        alloc,
        table,
        |name| buildable_at(alloc, problem, table, name),
    )
}

fn version_at(
    alloc: Global,
    problem: &Problem,
    table: &LiteralTable,
    name: &Word,
) -> Result<Formula, AllocError>
    ensures { IfOk result (λ formula. formula ≡ built_said table.now name.now
        (plain_said table.now (version_rule problem.now name.now))) }
{
    let name = name.as_str();
    let rule = Scribe { alloc, table }.version_formula(problem, name)?;
    Scribe { alloc, table }.where_built(name, rule)
}

/// The versions of nodes to build are declared.
pub fn version_row(
    alloc: Global,
    problem: &Problem,
    table: &LiteralTable,
) -> Result<Formula, AllocError>
    ensures { IfOk result (λ formula. formula ≡ built_row table.now
        (λ name. plain_said table.now (version_rule problem.now name))) }
{
    each_name(alloc, table, |name| version_at(alloc, problem, table, name))
}

fn compiler_at(
    alloc: Global,
    problem: &Problem,
    table: &LiteralTable,
    name: &Word,
) -> Result<Formula, AllocError>
    ensures { IfOk result (λ formula. formula ≡ built_said table.now name.now
        (plain_said table.now (compiler_rule problem.now name.now))) }
{
    let name = name.as_str();
    let rule = Scribe { alloc, table }.compiler_formula(problem, name)?;
    Scribe { alloc, table }.where_built(name, rule)
}

/// Nodes to build have a compiler of the settings, on an OS and for a target that it supports.
pub fn compiler_row(
    alloc: Global,
    problem: &Problem,
    table: &LiteralTable,
) -> Result<Formula, AllocError>
    ensures { IfOk result (λ formula. formula ≡ built_row table.now
        (λ name. plain_said table.now (compiler_rule problem.now name))) }
{
    each_name(
        alloc,
        table,
        |name| compiler_at(alloc, problem, table, name),
    )
}

fn machine_at(
    alloc: Global,
    problem: &Problem,
    table: &LiteralTable,
    name: &Word,
) -> Result<Formula, AllocError>
    ensures { IfOk result (λ formula. formula ≡ built_said table.now name.now
        (plain_said table.now (machine_rule problem.now name.now))) }
{
    let name = name.as_str();
    let rule = Scribe { alloc, table }.machine_formula(problem, name)?;
    Scribe { alloc, table }.where_built(name, rule)
}

/// The OS and the target of nodes to build are in the settings.
pub fn machine_row(
    alloc: Global,
    problem: &Problem,
    table: &LiteralTable,
) -> Result<Formula, AllocError>
    ensures { IfOk result (λ formula. formula ≡ built_row table.now
        (λ name. plain_said table.now (machine_rule problem.now name))) }
{
    each_name(alloc, table, |name| machine_at(alloc, problem, table, name))
}
