//! The conditions of definitions of variants, out of those of all directives.
ghost use Rattle.std.specs.Prelude.{◌≡◌, take, drop, length, map, IfOk};
ghost use Rattle.problem.specs.Problems.{variants_at};
ghost use Rattle.ranked_costs.specs.Given.{passed, held_for};

use clause_formulas::Defined;
use literal_table::LiteralTable;
use plain_data::{Duplicate, List, Word};
use problem::{Problem, conflicts_at, depends_at, required_at, requirements_at, variants_at};
use std::alloc::{AllocError, Global};

fn before(values: &[Defined], count: usize) -> &[Defined]
    ensures { result.now ≡ take count values.now }
{
    if count < values.len() {
        &values[..count]
    } else {
        values
    }
}

fn after(values: &[Defined], count: usize) -> &[Defined]
    ensures { result.now ≡ drop count values.now }
{
    if count < values.len() {
        &values[count..]
    } else {
        &[]
    }
}

// The values behind those of a package's directives.
fn passed<'a>(problem: &Problem, name: &str, values: &'a [Defined]) -> &'a [Defined]
    ensures { result.now ≡ passed problem.now name.now values.now }
{
    let values = after(values, variants_at(problem, name).len());
    let values = after(values, depends_at(problem, name).len());
    let values = after(values, conflicts_at(problem, name).len());
    let values = after(values, requirements_at(problem, name).len());
    after(values, required_at(problem, name).len())
}

fn held_row(
    alloc: Global,
    problem: &Problem,
    name: &Word,
    values: &[Defined],
) -> Result<(Word, List<Defined>), AllocError>
    ensures { IfOk result (λ row. row
        ≡ (name.now, take (length (variants_at problem.now name.now)) values.now)) }
{
    let count = variants_at(problem, name.as_str()).len();
    let conditions = Vec::from_slice(alloc, before(values, count))?;
    Ok((name.duplicate(alloc)?, List::from_vec(conditions)))
}

/// For each name of the table, the values of the conditions of its definitions of variants, where
/// the values are those of all directives, name by name: of each package the definitions of
/// variants come first, then dependencies, conflicts and requirements, those of the settings last.
pub(crate) fn held_for(
    alloc: Global,
    problem: &Problem,
    table: &LiteralTable,
    values: &[Defined],
) -> Result<Vec<(Word, List<Defined>)>, AllocError>
    ensures { IfOk result (λ held. held.items ≡ held_for problem.now table.now values.now) }
{
    let mut held = Vec::new(alloc);
    let mut rest = values;
    for block in table.blocks() {
        held.push(held_row(alloc, problem, &block.name, rest)?)?;
        rest = passed(problem, block.name.as_str(), rest);
    }
    Ok(held)
}
