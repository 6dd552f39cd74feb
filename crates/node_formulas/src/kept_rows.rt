// The row of the rule of kept nodes.
ghost use Rattle.std.specs.Prelude.{◌≡◌, IfOk, map};
ghost use Rattle.clause_formulas.specs.Rules.{fact, if_so};
ghost use Rattle.clause_formulas.specs.Statements.{all_statements};
ghost use Rattle.graph_formulas.specs.Facts.{has_origin, node_has};
ghost use Rattle.literal_table.specs.Choices.{choice_values};
ghost use Rattle.graph_formulas.specs.Kept.{origin_rule, kept_rule, origins_of};
ghost use Rattle.problem.specs.Nodes.{same_origin};
ghost use Rattle.graph_formulas.specs.Laws.{children_of};
ghost use Rattle.node_formulas.specs.Rows.{there_said, there_row};
ghost use Rattle.word_formulas.specs.Builders.{plain_said};

use crate::children::children_of;
use crate::kept::origin_formula;
use crate::names::each_name;
use crate::origins::same_origin;
use clause_formulas::Formula;
use clause_store::Lit;
use graph_core::Origin;
use literal_table::{Block, LiteralTable};
use plain_data::Word;
use problem::Problem;
use std::alloc::{AllocError, Global};
use word_formulas::{Scribe, each};

// Where the node has the origin, it is as that origin asks.
fn origin_at(
    alloc: Global,
    problem: &Problem,
    table: &LiteralTable,
    children: &[Word],
    name: &Word,
    choice: &(Origin, Lit),
) -> Result<Formula, AllocError>
    ensures { IfOk result (λ formula. formula ≡ plain_said table.now
        (if_so (fact (node_has name.now (has_origin (same_origin choice.now.0))))
        (origin_rule problem.now children.now name.now choice.now.0))) }
{
    let origin = &choice.0;
    let has = Scribe { alloc, table }.origin_passes(
        name.as_str(),
        |other| same_origin(origin, other),
    )?;
    let asked = origin_formula(alloc, problem, table, children, name, origin)?;
    Formula::implies(alloc, has, asked)
}

fn origins_formula(
    alloc: Global,
    problem: &Problem,
    table: &LiteralTable,
    children: &[Word],
    name: &Word,
    origins: &[(Origin, Lit)],
) -> Result<Formula, AllocError>
    ensures { IfOk result (λ formula. formula ≡ all_statements (map (λ c. plain_said table.now
        (if_so (fact (node_has name.now (has_origin (same_origin c.0))))
        (origin_rule problem.now children.now name.now c.0))) origins.now)) }
{
    each(alloc, origins, |choice| {
        origin_at(alloc, problem, table, children, name, choice)
    })
}

/// The same of a name that the table has.
fn kept_in(
    alloc: Global,
    problem: &Problem,
    table: &LiteralTable,
    name: &Word,
    block: &Block,
) -> Result<Formula, AllocError>
    ensures { IfOk result (λ formula. formula ≡ plain_said table.now
        (kept_rule problem.now (children_of table.now name.now) (choice_values block.now.origins)
        name.now)) }
{
    let children = children_of(alloc, table, name.as_str())?;
    origins_formula(
        alloc,
        problem,
        table,
        children.as_slice(),
        name,
        block.origins.as_slice(),
    )
}

/// Where the node of the name has an origin that the table offers it, it is as that origin asks.
pub fn kept_formula(
    alloc: Global,
    problem: &Problem,
    table: &LiteralTable,
    name: &Word,
) -> Result<Formula, AllocError>
    ensures { IfOk result (λ formula. formula ≡ plain_said table.now (kept_rule problem.now
        (children_of table.now name.now) (origins_of table.now name.now) name.now)) }
{
    match table.block(name.as_str()) {
        Some(block) => kept_in(alloc, problem, table, name, block),
        None => Formula::all(alloc, Vec::new(alloc)),
    }
}

fn kept_at(
    alloc: Global,
    problem: &Problem,
    table: &LiteralTable,
    name: &Word,
) -> Result<Formula, AllocError>
    ensures { IfOk result (λ formula. formula ≡ there_said table.now name.now (plain_said table.now
        (kept_rule problem.now (children_of table.now name.now) (origins_of table.now name.now)
        name.now))) }
{
    let there = Scribe { alloc, table }.is_there(name.as_str());
    let kept = kept_formula(alloc, problem, table, name)?;
    Formula::implies(alloc, there, kept)
}

/// Each node that is there is as its origin asks.
pub fn kept_row(
    alloc: Global,
    problem: &Problem,
    table: &LiteralTable,
) -> Result<Formula, AllocError>
    ensures { IfOk result (λ formula. formula ≡ there_row table.now (λ name. plain_said table.now
        (kept_rule problem.now (children_of table.now name) (origins_of table.now name) name))) }
{
    each_name(alloc, table, |name| kept_at(alloc, problem, table, name))
}
