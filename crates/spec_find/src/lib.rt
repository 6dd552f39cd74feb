//! Which records of a database meet a spec.
//!
//! What it is: `find`, which looks over a database.
//! What it promises: the places of exactly the records that meet the spec, by bytes of their hashes.
//! What it stands on: `condition_rules` for what a part of a spec asks of a node, `reuse_db` for records.
//! What it must not know: graphs of a run, roots, settings besides the platform and the targets.
#![tactic(auto)]

mod below;
mod links;
mod node;
mod order;
mod search;

pub use reuse_db::installed_node;
pub use search::find;
