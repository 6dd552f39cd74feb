//! Rows of levels and paths.
ghost use Rattle.std.specs.Prelude.{◌≡◌, ◌<◌, length, IfOk, IfSome};
ghost use Rattle.std.specs.List.{All};
ghost use Rattle.clause_store.specs.Lits.{var_of};
ghost use Rattle.level_encoding.specs.Input.{IsRight, input_of};

use crate::answer::Answer;
use crate::input::{lit_of, lits_of, parts};
use clause_store::{ClauseList, Lit};
use level_encoding::{Arc, levels};
use std::alloc::{AllocError, Global};

/// What `levels` takes.
#[derive(Drop)]
struct Network {
    nodes: Vec<Lit>,
    roots: Vec<u64>,
    arcs: Vec<Arc>,
    asked: Vec<(u64, u64)>,
}

/// The command `levels` of four lists: literals of nodes, places of roots, arcs such as `0>1=4`
/// with their literals, asked pairs such as `0>2`.
pub fn ask(
    alloc: Global,
    clauses: &mut ClauseList,
    words: &[&str],
) -> Result<Option<Answer>, AllocError> {
    match network_of(alloc, words, clauses.vars())? {
        Some(network) => Ok(Some(Answer::Paths(paths(alloc, clauses, &network)?))),
        None => Ok(None),
    }
}

// The literals of the asked pairs.
fn paths(
    alloc: Global,
    clauses: &mut ClauseList,
    network: &Network,
) -> Result<Vec<Option<Lit>>, AllocError>
    requires right { IsRight (input_of network.now.nodes.items network.now.roots.items
        network.now.arcs.items network.now.asked.items clauses.old.vars) }
    requires asked { All (λ pair. (pair.0 < length network.now.nodes.items)
        × (pair.1 < length network.now.nodes.items)) network.now.asked.items }
{
    levels(
        alloc,
        clauses,
        network.nodes.as_slice(),
        network.roots.as_slice(),
        network.arcs.as_slice(),
        network.asked.as_slice(),
    )
}

// The four lists: None where a word is wrong.
fn network_of(alloc: Global, words: &[&str], vars: u64) -> Result<Option<Network>, AllocError>
    ensures right { IfOk result (λ network. IfSome network (λ n.
        IsRight (input_of n.nodes.items n.roots.items n.arcs.items n.asked.items vars))) }
    ensures asked { IfOk result (λ network. IfSome network (λ n.
        All (λ pair. (pair.0 < length n.nodes.items) × (pair.1 < length n.nodes.items))
        n.asked.items)) }
{
    match words {
        [nodes, roots, arcs, asked] => match nodes_of(alloc, nodes, vars)? {
            Some(nodes) => {
                let size = nodes.len() as u64;
                let roots = roots_of(alloc, roots, size)?;
                let arcs = arcs_of(alloc, arcs, size, vars)?;
                let asked = pairs_of(alloc, asked, size)?;
                Ok(Some(Network {
                    nodes,
                    roots,
                    arcs,
                    asked,
                }))
            }
            None => Ok(None),
        },
        _ => Ok(None),
    }
}

// The literals of the nodes.
#[tactic(auto, using(crate::proofs::RangeLaws::nodes_in_range))]
fn nodes_of(alloc: Global, word: &str, vars: u64) -> Result<Option<Vec<Lit>>, AllocError>
    ensures { IfOk result (λ lits. IfSome lits (λ ls. All (λ l. var_of l < vars) ls.items)) }
{
    let words = parts(alloc, word)?;
    match lits_of(alloc, words.as_slice(), vars)? {
        Some(lits) => Ok(Some(lits)),
        None => Ok(None),
    }
}

// The numbers of a list that are below a size.
fn roots_of(alloc: Global, word: &str, size: u64) -> Result<Vec<u64>, AllocError> {
    let mut roots = Vec::new(alloc);
    for part in parts(alloc, word)?.as_slice() {
        if let Some(root) = number_of(part, size) {
            roots.push(root)?;
        }
    }
    Ok(roots)
}

// The arcs of a list whose ends are below a size.
fn arcs_of(alloc: Global, word: &str, size: u64, vars: u64) -> Result<Vec<Arc>, AllocError>
    ensures ends { IfOk result (λ arcs. All (λ a. (a.parent < size)
        × (a.child < size)) arcs.items) }
    ensures old { IfOk result (λ arcs. All (λ a. var_of a.lit < vars) arcs.items) }
{
    let mut arcs = Vec::new(alloc);
    for part in parts(alloc, word)?.as_slice() {
        if let Some(arc) = arc_of(part, size, vars) {
            arcs.push(arc)?;
        }
    }
    Ok(arcs)
}

// The pairs of a list whose numbers are below a size.
fn pairs_of(alloc: Global, word: &str, size: u64) -> Result<Vec<(u64, u64)>, AllocError>
    ensures { IfOk result (λ pairs. All (λ pair. (pair.0 < size) × (pair.1 < size)) pairs.items) }
{
    let mut pairs = Vec::new(alloc);
    for part in parts(alloc, word)?.as_slice() {
        if let Some(pair) = pair_of(part, size) {
            pairs.push(pair)?;
        }
    }
    Ok(pairs)
}

fn arc_of(word: &str, size: u64, vars: u64) -> Option<Arc>
    ensures ends { IfSome result (λ a. (a.parent < size) × (a.child < size)) }
    ensures old { IfSome result (λ a. var_of a.lit < vars) }
{
    let (ends, lit) = word.split_once('=')?;
    let (parent, child) = pair_of(ends, size)?;
    let lit = lit_of(lit, vars)?;
    Some(Arc { parent, child, lit })
}

fn pair_of(word: &str, size: u64) -> Option<(u64, u64)>
    ensures { IfSome result (λ pair. (pair.0 < size) × (pair.1 < size)) }
{
    let (first, second) = word.split_once('>')?;
    Some((number_of(first, size)?, number_of(second, size)?))
}

fn number_of(word: &str, size: u64) -> Option<u64>
    ensures { IfSome result (λ number. number < size) }
{
    let number = word.parse::<u64>().ok()?;
    if number < size { Some(number) } else { None }
}
