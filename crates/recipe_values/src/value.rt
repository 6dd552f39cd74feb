//! The values that arguments are.

use plain_data::{List, Word};

/// A value that is no tuple and no list, or that one which is, inside another one.
#[derive(Debug, Drop)]
pub enum Scalar {
    /// Strings beside each other, joined.
    Text(Word),
    /// A run of digits, as it is written.
    Number(Word),
    /// `True` or `False`
    Truth(bool),
    /// `None`
    Nothing,
    /// A tuple or a list, of which nothing is asked but that it can be read.
    Nested,
}

/// A member of a tuple or a list.
#[derive(Debug, Drop)]
pub struct Element {
    pub scalar: Scalar,
    /// Its first byte, that of a bracket around it.
    pub place: u64,
}

/// A value of an argument.
#[derive(Debug, Drop)]
pub enum Value {
    One(Scalar),
    /// A tuple or a list.
    Many(List<Element>),
}

/// A value with its places.
#[derive(Debug, Drop)]
pub struct PlacedValue {
    pub value: Value,
    /// Its first byte, that of a bracket around it.
    pub place: u64,
    /// The first byte of its first token that is no bracket around it.
    pub token: u64,
}
