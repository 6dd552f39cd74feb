//! Plain data: texts and lists that are kept, and that contracts see as plain lists.
//!
//! It promises: `Word` is seen as its bytes and `List` as the list of its elements, so a struct of
//! them is seen as a record of lists; `Duplicate` copies and `Same` compares exactly what is seen.
//! It stands on std alone. It knows nothing of what the texts mean.
#![tactic(auto)]

mod exact;
mod list;
mod word;

pub use exact::{Duplicate, Same};
pub use list::List;
pub use word::Word;
