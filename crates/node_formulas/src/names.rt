// Formulas at each name of a table, and at each virtual.
ghost use Rattle.std.specs.Prelude.{◌≡◌, map, IfOk};
ghost use Rattle.clause_formulas.specs.Statements.{Statement, all_statements};
ghost use Rattle.graph_core.specs.Graphs.{Text};
ghost use Rattle.graph_formulas.specs.Laws.{table_names, virtuals_of};
ghost use Rattle.word_formulas.specs.Builders.{Builds};

use clause_formulas::Formula;
use literal_table::{Block, LiteralTable, ProviderLits};
use plain_data::Word;
use std::alloc::{AllocError, Global};

/// The formulas of all names.
fn name_parts<F: Fn(&Word) -> Result<Formula, AllocError>>(
    alloc: Global,
    blocks: &[Block],
    part: F,
) -> Result<Vec<Formula>, AllocError>
    requires { F.IsAlwaysCallable part }
    ensures { (formula : Text → Statement) → Builds F.Fn formula part
        → IfOk result (λ parts. parts.items ≡ map (λ b. formula b.name) blocks.now) }
{
    let mut parts = Vec::new(alloc);
    for block in blocks {
        let made = part(&block.name)?;
        parts.push(made)?;
    }
    Ok(parts)
}

/// The formula is true at each name of the table.
pub fn each_name<F: Fn(&Word) -> Result<Formula, AllocError>>(
    alloc: Global,
    table: &LiteralTable,
    part: F,
) -> Result<Formula, AllocError>
    requires { F.IsAlwaysCallable part }
    ensures { (formula : Text → Statement) → Builds F.Fn formula part
        → IfOk result (λ whole. whole ≡ all_statements (map formula (table_names table.now))) }
{
    let parts = name_parts(alloc, table.blocks(), part)?;
    Formula::all(alloc, parts)
}

/// The formulas of all virtuals.
fn virtual_parts<F: Fn(&Word) -> Result<Formula, AllocError>>(
    alloc: Global,
    providers: &[ProviderLits],
    part: F,
) -> Result<Vec<Formula>, AllocError>
    requires { F.IsAlwaysCallable part }
    ensures { (formula : Text → Statement) → Builds F.Fn formula part
        → IfOk result (λ parts. parts.items ≡ map (λ p. formula p.name) providers.now) }
{
    let mut parts = Vec::new(alloc);
    for provider in providers {
        let made = part(&provider.name)?;
        parts.push(made)?;
    }
    Ok(parts)
}

/// The formula is true at each virtual of the table.
pub fn each_virtual<F: Fn(&Word) -> Result<Formula, AllocError>>(
    alloc: Global,
    table: &LiteralTable,
    part: F,
) -> Result<Formula, AllocError>
    requires { F.IsAlwaysCallable part }
    ensures { (formula : Text → Statement) → Builds F.Fn formula part
        → IfOk result (λ whole. whole ≡ all_statements (map formula (virtuals_of table.now))) }
{
    let parts = virtual_parts(alloc, table.providers(), part)?;
    Formula::all(alloc, parts)
}
