//! The terms of edges whose ends differ.
ghost use Rattle.std.specs.Prelude.{◌≡◌, ◌++◌, OnOk};
ghost use Rattle.cost_terms.specs.Terms.{child_terms, compared, edge_terms, edges_terms};

use crate::{push_compilers_differ, push_texts_differ};
use clause_formulas::Formula;
use cost_terms::Weighted;
use graph_rules::Attribute;
use literal_table::{Block, EdgeLits, LiteralTable, edge_there};
use std::alloc::{AllocError, Global};

// One where the edge is there and the attribute differs at its ends.
fn push_compared(
    alloc: Global,
    terms: &mut Vec<Weighted>,
    attribute: Attribute,
    there: Formula,
    block: &Block,
    child: &Block,
) -> Result<(), AllocError>
    ensures { OnOk result (terms.new.items ≡ terms.old.items
        ++ compared attribute there block.now child.now) }
{
    match attribute {
        Attribute::Compiler => push_compilers_differ(
            alloc,
            terms,
            there,
            block.compilers.as_slice(),
            child.compilers.as_slice(),
        ),
        Attribute::Os => {
            push_texts_differ(
                alloc,
                terms,
                there,
                block.os.as_slice(),
                child.os.as_slice(),
            )
        }
        Attribute::Target => push_texts_differ(
            alloc,
            terms,
            there,
            block.targets.as_slice(),
            child.targets.as_slice(),
        ),
    }
}

// The same of an edge of the block's node; other edges add nothing.
fn push_edge(
    alloc: Global,
    terms: &mut Vec<Weighted>,
    attribute: Attribute,
    table: &LiteralTable,
    block: &Block,
    edge: &EdgeLits,
) -> Result<(), AllocError>
    ensures { OnOk result (terms.new.items ≡ terms.old.items
        ++ edge_terms (compared attribute) table.now block.now edge.now) }
{
    if edge.parent.as_str() != block.name.as_str() {
        return Ok(());
    }
    match table.block(edge.child.as_str()) {
        Some(child) => {
            let there = edge_there(alloc, edge)?;
            push_compared(alloc, terms, attribute, there, block, child)
        }
        None => Ok(()),
    }
}

/// One for each edge of the block's node to a node that differs from it.
pub fn push_edges(
    alloc: Global,
    terms: &mut Vec<Weighted>,
    attribute: Attribute,
    table: &LiteralTable,
    block: &Block,
) -> Result<(), AllocError>
    ensures { OnOk result (terms.new.items ≡ terms.old.items
        ++ edges_terms (compared attribute) table.now block.now) }
{
    for edge in table.edges() {
        push_edge(alloc, terms, attribute, table, block, edge)?;
    }
    Ok(())
}
