//! The weights of all operating systems or targets that may be chosen, at once.
//!
//! What it is: `os_weights` and `target_weights`, each choice with its place in the settings' list.
//! What it promises: each weight is the one by which costs are defined (`graph_rules`).
//! What it stands on: `text_places` for places by binary search, `problem` for the settings.
//! What it must not know: what stands beside the choices.
#![tactic(auto)]

mod weights;

pub use weights::{os_weights, target_weights};
