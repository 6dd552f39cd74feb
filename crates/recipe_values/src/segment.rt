//! Segments: what stands between two commas of a call or a bracket.

use crate::{Pile, PlacedValue};
use recipe_lexer::Token;

/// A part of a segment.
#[derive(Debug, Drop)]
pub enum Atom {
    /// A token outside of all brackets.
    Plain(Token),
    /// The brackets that open at this place: what they stand for, or the place of what is no value in them.
    Inner(u64, Result<PlacedValue, u64>),
}

/// What stands between two commas.
#[derive(Debug, Drop)]
pub struct Segment {
    /// Its parts in their order.
    pub atoms: Pile<Atom>,
    /// The place of the comma or bracket behind it.
    pub stop: u64,
}
