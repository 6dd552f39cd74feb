//! What a graph costs: the weights of what its nodes have, and the vector of their sums.
//!
//! What it is: the weight of a version, an OS, a target, a compiler and a provider, where smaller
//! is better; the weights of all versions that may be chosen for a package, at once; and `vector`,
//! the 31 numbers by which graphs are compared.
//! What it promises: each is what the definition of its name in `graph_rules` computes, and errs
//! for want of memory alone.
//! What it stands on: `graph_rules` for the definitions, `problem` for the rows of a package and
//! for paths, `keyed_lists` for rows by their version.
//! What it must not know: which graphs are valid, clauses, bits of sums, and how a best graph is
//! found.
#![tactic(auto)]

mod choices;
mod indexes;
mod node_costs;
mod places;
mod ranks;
mod sums;
mod terms;
mod versions;

pub use choices::{deprecated_weights, version_weights};
pub use places::{compiler_weight, os_weight, provider_weight, target_weight};
pub use sums::vector;
pub use versions::{is_deprecated, version_weight};
