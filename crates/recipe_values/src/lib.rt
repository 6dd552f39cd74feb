//! The values that the arguments of a directive are.
//!
//! What it is: the segments between the commas of a call, their keywords, and the values that they are.
//! What it promises: a segment has exactly the value, or the place of what is no value, that the
//! definitions give.
//! What it stands on: `recipe_lexer` for tokens, `recipe_statements` for the words among them.
//! What it must not know: which arguments a directive takes, and what the texts say.
#![tactic(auto)]

mod brackets;
mod calls;
mod fault;
mod levels;
mod pile;
mod segment;
mod text;
mod theorems;
mod value;
mod values;

pub use calls::{arguments, keyword_of, place_of, read_text, read_value, without_keyword};
pub use fault::ValueFault;
pub use levels::{Level, Levels};
pub use pile::Pile;
pub use segment::{Atom, Segment};
pub use theorems::{worked_faults, worked_keywords, worked_strings, worked_values};
pub use value::{Element, PlacedValue, Scalar, Value};
