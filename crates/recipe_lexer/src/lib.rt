//! The tokens of a recipe: the first stage of reading one.
//!
//! What it is: `lex`, which cuts a file into the tokens of Python's own lexer, in a profile.
//! What it promises: a file has exactly the tokens, or the first fault, that the definitions give; tokens
//! stand in order inside the file, lines, blocks and brackets are whole.
//! What it stands on: `plain_data`.
//! What it must not know: statements, directives, and what the words and texts say.
//!
//! Python's reference has the rules, in its chapter on lexical analysis; `README.md`
//! beside this crate says where the profile differs.
#![tactic(auto)]

mod layout;
mod line;
mod piece;
mod theorems;
mod token;

pub use layout::lex;
pub use line::{LineState, Opened};
pub use piece::{Piece, Shape};
pub use theorems::{laws, worked_tokens};
pub use token::{LexFault, Token, TokenKind};
