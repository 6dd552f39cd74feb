//! Values of variants: kinds of variants, and sets of the texts that a variant has.
//!
//! It promises: a `ValueSet` is seen as its texts in byte order, each once, so two sets with the
//! same texts are equal, and each call says in terms of the set what it answers or changes.
//! It stands on `plain_data`, whose `Word` it gives on. It must not know where texts come from,
//! which variants a package has, or which values they may take.
#![tactic(auto)]

mod kind;
mod value_set;

pub use kind::VariantKind;
pub use plain_data::Word;
pub use value_set::{ValueSet, laws};
