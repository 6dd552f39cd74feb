//! The terms of the virtuals that a node provides.
ghost use Rattle.std.specs.Prelude.{◌≡◌, ◌++◌, OnOk};
ghost use Rattle.std.specs.Str.{bytes_eq};
ghost use Rattle.clause_formulas.specs.Statements.{atom};
ghost use Rattle.graph_rules.specs.Weights.{provider_weight};
ghost use Rattle.cost_terms.specs.Terms.{virtual_terms, provider_terms};
ghost use Rattle.term_builder.specs.Tests.{only_if};

use clause_formulas::Formula;
use clause_store::Lit;
use cost_terms::Weighted;
use cost_vector::provider_weight;
use literal_table::{Block, LiteralTable, ProviderLits};
use plain_data::Word;
use problem::Problem;
use std::alloc::AllocError;

// The weight of a virtual, if the one that may provide it has the name.
fn push_choice(
    terms: &mut Vec<Weighted>,
    problem: &Problem,
    name: &str,
    virtuals: &str,
    choice: &(Word, Lit),
) -> Result<(), AllocError>
    ensures { OnOk result (terms.new.items ≡ terms.old.items
        ++ only_if (bytes_eq choice.now.0 name.now) (record {
          weight = provider_weight problem.now (virtuals.now, choice.now.0);
          formula = atom choice.now.1;
        })) }
{
    let provider = choice.0.as_str();
    if !(provider == name) {
        return Ok(());
    }
    terms.push(Weighted {
        weight: provider_weight(problem, virtuals, provider) as u64,
        formula: Formula::lit(choice.1),
    })?;
    Ok(())
}

// The weight of a virtual where the package of this name provides it.
fn push_virtual(
    terms: &mut Vec<Weighted>,
    problem: &Problem,
    name: &str,
    virtuals: &ProviderLits,
) -> Result<(), AllocError>
    ensures { OnOk result (terms.new.items ≡ terms.old.items
        ++ virtual_terms problem.now name.now virtuals.now) }
{
    for choice in virtuals.packages.as_slice() {
        push_choice(terms, problem, name, virtuals.name.as_str(), choice)?;
    }
    Ok(())
}

/// The weights of the virtuals whose provider is the block's node.
pub fn push_providers(
    terms: &mut Vec<Weighted>,
    problem: &Problem,
    table: &LiteralTable,
    block: &Block,
) -> Result<(), AllocError>
    ensures { OnOk result (terms.new.items ≡ terms.old.items
        ++ provider_terms problem.now table.now block.now) }
{
    for virtuals in table.providers() {
        push_virtual(terms, problem, block.name.as_str(), virtuals)?;
    }
    Ok(())
}
