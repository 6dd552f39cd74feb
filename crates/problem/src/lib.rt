//! What is asked of a run, as data; how large it may be; and what is looked up in it.
//!
//! What it is: the recipes, settings, installed packages and requested specs that decide which
//! graphs are valid and what they cost; what may be demanded of a graph; the look-ups of rules and
//! costs, with `Explored`, a graph of which all paths were found once.
//! What it promises: a `Problem` is put together from right parts alone, and by `assemble` refuses
//! requested specs exactly as `roots_fault` says; each look-up answers what the definition of its
//! name in `specs/` computes. The limits (`specs/Limits`) are definitions alone.
//! What it stands on: `condition_rules` for conditions and paths, `site_settings`, `reuse_db`.
//! What it must not know: which graphs are valid, what they cost, clauses, and how a graph is
//! found.
#![tactic(auto)]

mod assembling;
mod demand;
mod demands;
mod explored;
mod fault;
mod known;
mod lookup;
mod platforms;
mod problem;
mod required;

pub use assembling::assemble;
pub use demand::Demand;
pub use explored::Explored;
pub use fault::ProblemFault;
pub use graph_core::is_built;
pub use lookup::{
    applies, asked_by, conflicts_at, covers, depends_at, entry_of, is_buildable, names_of,
    provides_at, recipe_at, requirements_at, same_compiler, variants_at, versions_at,
};
pub use problem::Problem;
pub use required::required_at;
