//! What may be demanded of a graph.

use plain_data::Word;

/// A root by its place among the requested specs, a directive by its package and its number there,
/// or a requirement of the settings by its package and its place there.
#[derive(Debug, Drop)]
pub enum Demand {
    Root(u64),
    Directive { package: Word, number: u64 },
    Setting { package: Word, number: u64 },
}
