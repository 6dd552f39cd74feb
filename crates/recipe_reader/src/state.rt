//! What was read of a file.

use crate::RecipeFault;
use directive_arguments::Names;
use plain_data::List;
use recipe_data::{Condition, Recipe};

/// A `with when` block that is open.
#[derive(Debug, Drop)]
pub struct Head {
    /// The conditions of the blocks that it stands in, the outermost first, and then its own.
    pub when: Condition,
    /// Why no `provides` may stand in it: the fault of the outermost of these conditions that has `^`.
    pub nested: Option<RecipeFault>,
}

/// What was read of a file so far.
#[derive(Debug, Drop)]
pub struct State {
    /// The heads of the last block and of those around it, the outermost first.
    pub heads: List<Head>,
    /// The texts of the versions so far.
    pub declared: Names,
    /// The rows so far.
    pub recipe: Recipe,
}
