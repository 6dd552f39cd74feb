//! The names to which conditions and specs ask for paths.
ghost use Rattle.std.specs.Prelude.{◌≡◌, ◌++◌, ◌∷◌, [], map, if◌then◌else◌, IfOk, OnOk};
ghost use Rattle.std.specs.List.{flat_map};
ghost use Rattle.virtuals.specs.Virtuals.{is_virtual};
ghost use Rattle.literal_table.specs.Choices.{choice_values};
ghost use Rattle.problem.specs.Problems.{world_of};
ghost use Rattle.graph_formulas.specs.Words.{names_for};
ghost use Rattle.valid_models.specs.Targets.{asked_names, spec_names, condition_names, targets_at, asked_targets, targets_of};

use clause_store::Lit;
use condition_rules::World;
use literal_table::LiteralTable;
use plain_data::{Duplicate, Word};
use problem::{Problem, conflicts_at, depends_at, required_at, requirements_at, variants_at};
use recipe_data::{ConflictRow, DependRow, RequireRow, VariantRow};
use spec_grammar::Spec;
use std::alloc::{AllocError, Global};
use variant_values::ValueSet;

// ---- one name, one spec

fn push_packages(
    alloc: Global,
    packages: &[(Word, Lit)],
    names: &mut Vec<Word>,
) -> Result<(), AllocError>
    ensures { OnOk result (names.new.items ≡ names.old.items ++ choice_values packages.now) }
{
    for choice in packages {
        names.push(choice.0.duplicate(alloc)?)?;
    }
    Ok(())
}

// The names of the nodes that may be what is asked for: the packages of a virtual, or the name
// itself.
fn push_nodes(
    alloc: Global,
    world: &World,
    table: &LiteralTable,
    asked: &Word,
    names: &mut Vec<Word>,
) -> Result<(), AllocError>
    ensures { OnOk result (names.new.items ≡ names.old.items
        ++ (if is_virtual world.now.recipes asked.now then names_for table.now asked.now
        else asked.now ∷ [])) }
{
    if world.is_virtual(asked.as_str()) {
        push_packages(alloc, table.packages(asked.as_str()), names)
    } else {
        names.push(asked.duplicate(alloc)?)?;
        Ok(())
    }
}

fn push_asked(
    alloc: Global,
    world: &World,
    table: &LiteralTable,
    asked: &Option<Word>,
    names: &mut Vec<Word>,
) -> Result<(), AllocError>
    ensures { OnOk result (names.new.items ≡ names.old.items
        ++ asked_names world.now (names_for table.now) asked.now) }
{
    match asked {
        Some(asked) => push_nodes(alloc, world, table, asked, names),
        None => Ok(()),
    }
}

fn push_spec(
    alloc: Global,
    world: &World,
    table: &LiteralTable,
    spec: &Spec,
    names: &mut Vec<Word>,
) -> Result<(), AllocError>
    ensures { OnOk result (names.new.items ≡ names.old.items
        ++ spec_names world.now (names_for table.now) spec.now) }
{
    for part in spec.below.as_slice() {
        push_asked(alloc, world, table, &part.name, names)?;
    }
    Ok(())
}

fn push_specs(
    alloc: Global,
    world: &World,
    table: &LiteralTable,
    specs: &[Spec],
    names: &mut Vec<Word>,
) -> Result<(), AllocError>
    ensures { OnOk result (names.new.items ≡ names.old.items
        ++ flat_map (spec_names world.now (names_for table.now)) specs.now) }
{
    for spec in specs {
        push_spec(alloc, world, table, spec, names)?;
    }
    Ok(())
}

// ---- the directives of a package

fn push_variants(
    alloc: Global,
    world: &World,
    table: &LiteralTable,
    rows: &[VariantRow],
    names: &mut Vec<Word>,
) -> Result<(), AllocError>
    ensures { OnOk result (names.new.items ≡ names.old.items
        ++ flat_map (λ row. condition_names world.now (names_for table.now) row.when) rows.now) }
{
    for row in rows {
        push_specs(alloc, world, table, row.when.specs.as_slice(), names)?;
    }
    Ok(())
}

fn push_depends(
    alloc: Global,
    world: &World,
    table: &LiteralTable,
    rows: &[DependRow],
    names: &mut Vec<Word>,
) -> Result<(), AllocError>
    ensures { OnOk result (names.new.items ≡ names.old.items
        ++ flat_map (λ row. condition_names world.now (names_for table.now) row.when) rows.now) }
{
    for row in rows {
        push_specs(alloc, world, table, row.when.specs.as_slice(), names)?;
    }
    Ok(())
}

fn push_conflicts(
    alloc: Global,
    world: &World,
    table: &LiteralTable,
    rows: &[ConflictRow],
    names: &mut Vec<Word>,
) -> Result<(), AllocError>
    ensures { OnOk result (names.new.items ≡ names.old.items
        ++ flat_map (λ row. condition_names world.now (names_for table.now) row.when) rows.now) }
{
    for row in rows {
        push_specs(alloc, world, table, row.when.specs.as_slice(), names)?;
    }
    Ok(())
}

fn push_requirements(
    alloc: Global,
    world: &World,
    table: &LiteralTable,
    rows: &[RequireRow],
    names: &mut Vec<Word>,
) -> Result<(), AllocError>
    ensures { OnOk result (names.new.items ≡ names.old.items
        ++ flat_map (λ row. condition_names world.now (names_for table.now) row.when) rows.now) }
{
    for row in rows {
        push_specs(alloc, world, table, row.when.specs.as_slice(), names)?;
    }
    Ok(())
}

fn push_refused(
    alloc: Global,
    world: &World,
    table: &LiteralTable,
    rows: &[ConflictRow],
    names: &mut Vec<Word>,
) -> Result<(), AllocError>
    ensures { OnOk result (names.new.items ≡ names.old.items
        ++ flat_map (λ row. spec_names world.now (names_for table.now) row.spec) rows.now) }
{
    for row in rows {
        push_spec(alloc, world, table, &row.spec, names)?;
    }
    Ok(())
}

fn push_required(
    alloc: Global,
    world: &World,
    table: &LiteralTable,
    rows: &[RequireRow],
    names: &mut Vec<Word>,
) -> Result<(), AllocError>
    ensures { OnOk result (names.new.items ≡ names.old.items
        ++ flat_map (λ row. flat_map (spec_names world.now (names_for table.now)) row.specs)
        rows.now) }
{
    for row in rows {
        push_specs(alloc, world, table, row.specs.as_slice(), names)?;
    }
    Ok(())
}

// The names to which the directives of a package ask for paths.
fn push_targets(
    alloc: Global,
    problem: &Problem,
    table: &LiteralTable,
    name: &str,
    names: &mut Vec<Word>,
) -> Result<(), AllocError>
    ensures { OnOk result (names.new.items ≡ names.old.items
        ++ targets_at problem.now table.now name.now) }
{
    let world = problem.world();
    let conflicts = conflicts_at(problem, name);
    let requirements = requirements_at(problem, name);
    let asked = required_at(problem, name);
    push_variants(alloc, &world, table, variants_at(problem, name), names)?;
    push_depends(alloc, &world, table, depends_at(problem, name), names)?;
    push_conflicts(alloc, &world, table, conflicts, names)?;
    push_requirements(alloc, &world, table, requirements, names)?;
    push_requirements(alloc, &world, table, asked, names)?;
    push_refused(alloc, &world, table, conflicts, names)?;
    push_required(alloc, &world, table, requirements, names)?;
    push_required(alloc, &world, table, asked, names)?;
    Ok(())
}

// ---- all of them

fn push_all(
    alloc: Global,
    problem: &Problem,
    table: &LiteralTable,
    names: &mut Vec<Word>,
) -> Result<(), AllocError>
    ensures { OnOk result (names.new.items ≡ names.old.items
        ++ flat_map (λ block. targets_at problem.now table.now block.name) table.now.blocks) }
{
    for block in table.blocks() {
        push_targets(alloc, problem, table, block.name.as_str(), names)?;
    }
    Ok(())
}

/// The names to which the directives of the table's packages, what the settings ask of them, and
/// the requested specs ask for paths, in byte order, each once.
pub fn targets_of(
    alloc: Global,
    problem: &Problem,
    table: &LiteralTable,
) -> Result<ValueSet, AllocError>
    ensures { IfOk result (λ names. names ≡ targets_of problem.now table.now) }
{
    let mut names = Vec::new(alloc);
    push_all(alloc, problem, table, &mut names)?;
    push_specs(alloc, &problem.world(), table, problem.roots(), &mut names)?;
    Ok(ValueSet::from_words(names))
}
