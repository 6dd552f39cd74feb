//! Small readers of JSON values: each gives the typed value, or the first fault with its JSON
//! pointer, in one pass.
//!
//! What it is: readers of texts, numbers, lists, maps and the keys of objects, put together by
//! types.
//! What it promises: a reader gives what its ghost member `reads` computes, and want of memory
//! besides.
//! What it stands on: `plain_data` for what is kept, `serde_json` for the values.
//! What it must not know: any file format, and what texts mean; callers bring the forms of texts.
#![tactic(auto)]

mod fault;
mod json;
mod list;
mod map;
mod object;
mod reader;
mod set;
mod text;

pub use fault::{JsonFault, Misfit, Wrong, at_key, at_root, below, below_place, pointer};
pub use json::read_json;
pub use list::{ListOf, distinct, not_empty};
pub use map::{KnownMapOf, MapOf, NullOr, named};
pub use object::{field, first_odd, known, may, member, members_of, need, none_odd};
pub use reader::Reader;
pub use set::{Filled, SetOf};
pub use text::{AnyText, Text, TextForm, TruthValue, WholeNumber};
