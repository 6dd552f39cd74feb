//! The statements of a recipe: the second stage of reading one.
//!
//! What it is: `statements`, which finds the calls of directives and the `with when` heads in the tokens of
//! a file, passes over what needs no reading, and refuses the rest.
//! What it promises: the tokens make exactly the items, or the first fault, that the definitions give.
//! What it stands on: `recipe_lexer`.
//! What it must not know: what stands in the brackets of a directive.
#![tactic(auto)]

mod form;
mod item;
mod read;
mod reader;
mod theorems;
mod token;

pub use form::{HeadForm, PlainForm};
pub use item::{ClassItem, StatementFault};
pub use read::statements;
pub use theorems::laws;
