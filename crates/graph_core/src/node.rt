//! What a graph is made of.

ghost use Rattle.std.specs.Prelude.{◌≡◌};
ghost use Rattle.graph_core.specs.Graphs.{is_built};

use keyed_lists::{Keyed, ValueSet};
use plain_data::{List, Word};
use spec_hash::Hash;
use version_order::Version;

/// The compiler of a node.
#[derive(Debug, Drop)]
pub struct Compiler {
    pub name: Word,
    pub version: Version,
}

/// What an edge is needed for.
#[derive(Clone, Copy, Debug, PartialEq, Eq)]
pub struct Kinds {
    pub build: bool,
    pub link: bool,
    pub run: bool,
}

/// Where a node comes from.
#[derive(Clone, Copy, Debug, PartialEq, Eq)]
pub enum Origin {
    /// It is built by its recipe.
    Built,
    /// The settings name it: its place among the package's externals.
    External(u64),
    /// It is installed already, with this hash.
    Installed(Hash),
}

/// A package as it is in a graph.
#[derive(Debug, Drop)]
pub struct Node {
    pub name: Word,
    pub version: Version,
    pub variants: List<(Word, ValueSet)>,
    pub compiler: Option<Compiler>,
    pub os: Word,
    pub target: Word,
    /// Where it stands, if it is not built.
    pub prefix: Option<Word>,
    pub origin: Origin,
}

/// A dependency of one node on another.
#[derive(Debug, Drop)]
pub struct Edge {
    pub parent: Word,
    pub child: Word,
    pub kinds: Kinds,
    /// What the child provides to the parent.
    pub virtuals: ValueSet,
}

/// Whether a node is to be built.
pub fn is_built(node: &Node) -> bool
    ensures { result ≡ is_built node.now }
{
    matches!(node.origin, Origin::Built)
}

impl Keyed for Node {
    ghost key_of = { λ node. node.name };

    fn key(&self) -> &str {
        self.name.as_str()
    }
}
