//! Numbers that bits spell.

use clause_store::Lit;
use plain_data::List;

/// A number whose bits stand behind those of the numbers before it, the first bit counting most.
#[derive(Drop)]
pub struct Number {
    /// The place behind its last bit.
    pub end: usize,
    /// Literals that make it greater where they are true.
    pub parts: List<Lit>,
}
