//! Formulas of providers that none uses.
ghost use Rattle.std.specs.Prelude.{◌≡◌, map, filter, IfOk};
ghost use Rattle.clause_formulas.specs.Rules.{fact, if_so};
ghost use Rattle.graph_formulas.specs.Edges.{use_rule, used_rule, of_provider};
ghost use Rattle.graph_formulas.specs.Facts.{provides_as};
ghost use Rattle.graph_formulas.specs.Laws.{may_use};
ghost use Rattle.graph_formulas.specs.Terms.{known_rule};
ghost use Rattle.graph_formulas.specs.Words.{names_for};
ghost use Rattle.literal_table.specs.Tables.{table_names};
ghost use Rattle.rule_formulas.specs.Terms.{plain_term, no_conditions};

use clause_formulas::Formula;
use clause_store::Lit;
use literal_table::LiteralTable;
use plain_data::Word;
use std::alloc::{AllocError, Global};
use word_formulas::{Scribe, each, some_where};

/// An edge from the name to the provider may name the virtual.
fn may_use(scribe: &Scribe, virtual_name: &Word, provider: &Word, name: &Word) -> bool
    ensures { result ≡ may_use scribe.now.table.now (virtual_name.now, provider.now) name.now }
{
    let choice = scribe.virtual_choice(name.as_str(), provider.as_str(), virtual_name.as_str());
    choice.is_some()
}

/// An edge from the name to the provider names the virtual.
fn use_formula(
    scribe: &Scribe,
    virtual_name: &Word,
    provider: &Word,
    name: &Word,
) -> Result<Formula, AllocError>
    ensures { IfOk result (λ formula. formula ≡ plain_term scribe.now.table.now no_conditions
        (use_rule (virtual_name.now, provider.now) name.now)) }
{
    scribe.has_virtual(name.as_str(), provider.as_str(), virtual_name.as_str())
}

/// Some node uses the provider.
fn used_by_some(
    scribe: &Scribe,
    virtual_name: &Word,
    provider: &Word,
) -> Result<Formula, AllocError>
    ensures { IfOk result (λ formula. formula ≡ plain_term scribe.now.table.now no_conditions
        (used_rule (may_use scribe.now.table.now) (table_names scribe.now.table.now)
        (virtual_name.now, provider.now))) }
{
    some_where(
        scribe.alloc,
        scribe.table.blocks(),
        |block| may_use(scribe, virtual_name, provider, &block.name),
        |block| use_formula(scribe, virtual_name, provider, &block.name),
    )
}

/// Where the package provides the virtual, some node uses it.
fn choice_formula(
    scribe: &Scribe,
    virtual_name: &Word,
    choice: &(Word, Lit),
) -> Result<Formula, AllocError>
    ensures { IfOk result (λ formula. formula ≡ plain_term scribe.now.table.now no_conditions
        (if_so (known_rule (fact (provides_as virtual_name.now choice.now.0)))
        (used_rule (may_use scribe.now.table.now) (table_names scribe.now.table.now)
        (virtual_name.now, choice.now.0)))) }
{
    let provides = scribe.provider_formula(virtual_name, &choice.0)?;
    let used = used_by_some(scribe, virtual_name, &choice.0)?;
    Formula::implies(scribe.alloc, provides, used)
}

/// The provider of the virtual is used by some node, whether that is to be built or kept.
pub fn used_formula(
    alloc: Global,
    table: &LiteralTable,
    virtual_name: &Word,
) -> Result<Formula, AllocError>
    ensures { IfOk result (λ formula. formula ≡ plain_term table.now no_conditions
        (of_provider (names_for table.now) (used_rule (may_use table.now) (table_names table.now))
        virtual_name.now)) }
{
    let scribe = Scribe { alloc, table };
    each(alloc, table.packages(virtual_name.as_str()), |choice| {
        choice_formula(&scribe, virtual_name, choice)
    })
}
