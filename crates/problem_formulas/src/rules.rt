//! The rules that are always asked.
ghost use Rattle.std.specs.Prelude.{◌≡◌, ◌++◌, IfOk, OnOk};
ghost use Rattle.clause_formulas.specs.Statements.{all_statements};
ghost use Rattle.problem_formulas.specs.Rows.{first_rows, more_rows, last_rows, rows_said};

use crate::rows::{extra_row, together_row, used_row, variant_row};
use clause_formulas::Formula;
use literal_table::LiteralTable;
use node_formulas::{
    buildable_row, compiler_row, kept_row, machine_row, provider_row, version_row,
};
use problem::Problem;
use rule_formulas::MetConditions;
use std::alloc::{AllocError, Global};

// The rules Buildable, Version and Variant.
fn push_first<C: MetConditions>(
    alloc: Global,
    parts: &mut Vec<Formula>,
    problem: &Problem,
    table: &LiteralTable,
    conditions: &C,
) -> Result<(), AllocError>
    ensures { OnOk result (parts.new.items ≡ parts.old.items
        ++ first_rows problem.now table.now (C.condition_of conditions.now)) }
{
    let buildable = buildable_row(alloc, problem, table)?;
    parts.push(buildable)?;
    let version = version_row(alloc, problem, table)?;
    parts.push(version)?;
    let variants = variant_row(alloc, problem, table, conditions)?;
    parts.push(variants)?;
    Ok(())
}

// The rules Compiler, Machine and of edges that none asks for.
fn push_more<C: MetConditions>(
    alloc: Global,
    parts: &mut Vec<Formula>,
    problem: &Problem,
    table: &LiteralTable,
    conditions: &C,
) -> Result<(), AllocError>
    ensures { OnOk result (parts.new.items ≡ parts.old.items
        ++ more_rows problem.now table.now (C.condition_of conditions.now)) }
{
    let compiler = compiler_row(alloc, problem, table)?;
    parts.push(compiler)?;
    let machine = machine_row(alloc, problem, table)?;
    parts.push(machine)?;
    let extra = extra_row(alloc, problem, table, conditions)?;
    parts.push(extra)?;
    Ok(())
}

// The rules of kept nodes, of providers, of such as none uses, and of such as come together.
fn push_last<C: MetConditions>(
    alloc: Global,
    parts: &mut Vec<Formula>,
    problem: &Problem,
    table: &LiteralTable,
    conditions: &C,
) -> Result<(), AllocError>
    ensures { OnOk result (parts.new.items ≡ parts.old.items
        ++ last_rows problem.now table.now (C.condition_of conditions.now)) }
{
    let kept = kept_row(alloc, problem, table)?;
    parts.push(kept)?;
    let provider = provider_row(alloc, problem, table)?;
    parts.push(provider)?;
    let used = used_row(alloc, table)?;
    parts.push(used)?;
    let together = together_row(alloc, problem, table)?;
    parts.push(together)?;
    Ok(())
}

/// The rules that are always asked, but for those of levels.
pub(crate) fn all_rules<C: MetConditions>(
    alloc: Global,
    problem: &Problem,
    table: &LiteralTable,
    conditions: &C,
) -> Result<Formula, AllocError>
    ensures { IfOk result (λ formula. formula
        ≡ all_statements (rows_said problem.now table.now (C.condition_of conditions.now))) }
{
    let mut parts = Vec::new(alloc);
    push_first(alloc, &mut parts, problem, table, conditions)?;
    push_more(alloc, &mut parts, problem, table, conditions)?;
    push_last(alloc, &mut parts, problem, table, conditions)?;
    Formula::all(alloc, parts)
}
