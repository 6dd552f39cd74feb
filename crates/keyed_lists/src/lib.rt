//! Lists in which elements are found by a key of each, by binary search.
//!
//! What it is: `Keyed` and the searches in lists in order by a key, each key once; and `TextIndex`, lent elements
//! that are sorted once by a text of each, where several may have one text.
//! What it promises: what each look-up and `insert` answers; that lists that answer all look-ups alike are one
//! (`theorems`); that an index has at each text just the elements with it, in the order in which they were given.
//! What it stands on: `plain_data`, the byte order of texts of `variant_values`; it passes on words of `reachability`.
//! What it must not know: what the elements are.
#![tactic(auto)]

mod index;
mod keyed;
mod theorems;

pub use index::TextIndex;
pub use keyed::{Keyed, find, has_key, insert, place_of};
pub use reachability::{Bits, PathTable, heads_of, reached};
pub use theorems::{given_laws, keyed_laws};
pub use variant_values::{ValueSet, VariantKind};
