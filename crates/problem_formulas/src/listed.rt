//! The formulas of conditions, package by package.
ghost use Rattle.std.specs.Prelude.{◌≡◌, ◌++◌, ◌∷◌, [], map, IfOk, OnOk};
ghost use Rattle.std.specs.List.{flat_map};
ghost use Rattle.valid_models.specs.Joined.{condition_said};
ghost use Rattle.rule_formulas.specs.Paths.{path_by};
ghost use Rattle.problem_formulas.specs.Asked.{formulas_at, formulas_of};

use clause_formulas::Formula;
use graph_levels::PathLits;
use literal_table::LiteralTable;
use problem::{Problem, conflicts_at, depends_at, required_at, requirements_at, variants_at};
use recipe_data::{Condition, ConflictRow, DependRow, RequireRow, VariantRow};
use rule_formulas::condition_formula;
use std::alloc::{AllocError, Global};

fn push_condition(
    alloc: Global,
    problem: &Problem,
    table: &LiteralTable,
    paths: &PathLits,
    name: &str,
    when: &Condition,
    formulas: &mut Vec<Formula>,
) -> Result<(), AllocError>
    ensures { OnOk result (formulas.new.items ≡ formulas.old.items
        ++ condition_said problem.now table.now (path_by table.now paths.now) name.now
        when.now ∷ []) }
{
    let formula = condition_formula(alloc, table, &problem.world(), paths, name, when)?;
    formulas.push(formula)?;
    Ok(())
}

fn push_variants(
    alloc: Global,
    problem: &Problem,
    table: &LiteralTable,
    paths: &PathLits,
    name: &str,
    rows: &[VariantRow],
    formulas: &mut Vec<Formula>,
) -> Result<(), AllocError>
    ensures { OnOk result (formulas.new.items ≡ formulas.old.items
        ++ map (λ row. condition_said problem.now table.now (path_by table.now paths.now)
        name.now row.when)
        rows.now) }
{
    for row in rows {
        push_condition(alloc, problem, table, paths, name, &row.when, formulas)?;
    }
    Ok(())
}

fn push_depends(
    alloc: Global,
    problem: &Problem,
    table: &LiteralTable,
    paths: &PathLits,
    name: &str,
    rows: &[DependRow],
    formulas: &mut Vec<Formula>,
) -> Result<(), AllocError>
    ensures { OnOk result (formulas.new.items ≡ formulas.old.items
        ++ map (λ row. condition_said problem.now table.now (path_by table.now paths.now)
        name.now row.when)
        rows.now) }
{
    for row in rows {
        push_condition(alloc, problem, table, paths, name, &row.when, formulas)?;
    }
    Ok(())
}

fn push_conflicts(
    alloc: Global,
    problem: &Problem,
    table: &LiteralTable,
    paths: &PathLits,
    name: &str,
    rows: &[ConflictRow],
    formulas: &mut Vec<Formula>,
) -> Result<(), AllocError>
    ensures { OnOk result (formulas.new.items ≡ formulas.old.items
        ++ map (λ row. condition_said problem.now table.now (path_by table.now paths.now)
        name.now row.when)
        rows.now) }
{
    for row in rows {
        push_condition(alloc, problem, table, paths, name, &row.when, formulas)?;
    }
    Ok(())
}

fn push_requirements(
    alloc: Global,
    problem: &Problem,
    table: &LiteralTable,
    paths: &PathLits,
    name: &str,
    rows: &[RequireRow],
    formulas: &mut Vec<Formula>,
) -> Result<(), AllocError>
    ensures { OnOk result (formulas.new.items ≡ formulas.old.items
        ++ map (λ row. condition_said problem.now table.now (path_by table.now paths.now)
        name.now row.when)
        rows.now) }
{
    for row in rows {
        push_condition(alloc, problem, table, paths, name, &row.when, formulas)?;
    }
    Ok(())
}

// The formulas of the conditions of a package's directives, list by list.
fn push_package(
    alloc: Global,
    problem: &Problem,
    table: &LiteralTable,
    paths: &PathLits,
    name: &str,
    formulas: &mut Vec<Formula>,
) -> Result<(), AllocError>
    ensures { OnOk result (formulas.new.items ≡ formulas.old.items
        ++ formulas_at problem.now table.now (path_by table.now paths.now) name.now) }
{
    let variants = variants_at(problem, name);
    push_variants(alloc, problem, table, paths, name, variants, formulas)?;
    let depends = depends_at(problem, name);
    push_depends(alloc, problem, table, paths, name, depends, formulas)?;
    let conflicts = conflicts_at(problem, name);
    push_conflicts(alloc, problem, table, paths, name, conflicts, formulas)?;
    let requirements = requirements_at(problem, name);
    push_requirements(alloc, problem, table, paths, name, requirements, formulas)?;
    let required = required_at(problem, name);
    push_requirements(alloc, problem, table, paths, name, required, formulas)?;
    Ok(())
}

/// The formula of each condition of the directives of the table's packages: package by package, and
/// of each those of variants, dependencies, conflicts and requirements, in the order of the recipe,
/// and then those of the settings' requirements.
pub fn condition_formulas(
    alloc: Global,
    problem: &Problem,
    table: &LiteralTable,
    paths: &PathLits,
) -> Result<Vec<Formula>, AllocError>
    ensures { IfOk result (λ formulas. formulas.items
        ≡ formulas_of problem.now table.now (path_by table.now paths.now)) }
{
    let mut formulas = Vec::new(alloc);
    for block in table.blocks() {
        push_package(
            alloc,
            problem,
            table,
            paths,
            block.name.as_str(),
            &mut formulas,
        )?;
    }
    Ok(formulas)
}
