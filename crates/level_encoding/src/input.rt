//! What is given: nodes, roots, arcs and the pairs that paths are asked for.

use clause_store::Lit;
use std::marker::Model;

/// An arc between two numbers, with the literal that chooses it.
#[derive(Clone, Copy, Default)]
pub struct Arc {
    pub parent: u64,
    pub child: u64,
    pub lit: Lit,
}

/// Numbers with the literals that choose them, roots, arcs, asked pairs, and the first new
/// variable.
#[derive(Drop)]
pub struct LevelInput<'a> {
    nodes: &'a [Lit],
    roots: &'a [u64],
    arcs: &'a [Arc],
    asked: &'a [(u64, u64)],
    first: u64,
}

impl<'a> Model for LevelInput<'a> {
    ghost use Rattle.level_encoding.specs.Input.{LevelData};

    ghost Value = { LevelData };

    ghost view = { λ i. record { nodes = i.nodes.now; roots = i.roots.now; arcs = i.arcs.now; asked = i.asked.now; first = i.first } };
}

impl<'a> LevelInput<'a> {
    ghost use Rattle.std.specs.Prelude.{◌≡◌};
    ghost use Rattle.level_encoding.specs.Input.{numbers};

    /// Numbers from 0 on, each with the literal that chooses it; roots, arcs and asked pairs are of
    /// these numbers, and `first` is the first variable that nothing has.
    pub fn new(
        nodes: &'a [Lit],
        roots: &'a [u64],
        arcs: &'a [Arc],
        asked: &'a [(u64, u64)],
        first: u64,
    ) -> LevelInput<'a>
        ensures { result ≡ record {
          nodes = nodes.now;
          roots = roots.now;
          arcs = arcs.now;
          asked =
              asked.now;
          first = first;
        } }
    {
        LevelInput {
            nodes,
            roots,
            arcs,
            asked,
            first,
        }
    }

    /// How many numbers there are.
    pub(crate) fn size(&self) -> usize
        ensures { result ≡ numbers self.now }
    {
        self.nodes.len()
    }

    /// The literals that choose the numbers.
    pub(crate) fn nodes(&self) -> &[Lit]
        ensures { result.now ≡ self.now.nodes }
    {
        self.nodes
    }

    /// The numbers that are founded by themselves.
    pub(crate) fn roots(&self) -> &[u64]
        ensures { result.now ≡ self.now.roots }
    {
        self.roots
    }

    /// The arcs, with the literals that choose them.
    pub(crate) fn arcs(&self) -> &[Arc]
        ensures { result.now ≡ self.now.arcs }
    {
        self.arcs
    }

    /// The pairs that paths are asked for.
    pub(crate) fn asked(&self) -> &[(u64, u64)]
        ensures { result.now ≡ self.now.asked }
    {
        self.asked
    }

    /// The first variable that nothing has.
    pub(crate) fn first(&self) -> u64
        ensures { result ≡ self.now.first }
    {
        self.first
    }
}
