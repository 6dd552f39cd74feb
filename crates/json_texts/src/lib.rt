//! Forms of texts in JSON files that specs have too: names, values and versions.
//!
//! What it is: the forms NAME and VALUE for `json_readers`, and a reader of versions.
//! What it promises: a form is that of `spec_grammar` or `version_order`; `True` means `true`.
//! What it stands on: `json_readers`, and the definitions of the grammar of specs and of versions.
//! What it must not know: which files have which keys.
#![tactic(auto)]

mod name;
mod value;
mod version;

pub use name::Name;
pub use value::{PlainValue, Value};
pub use version::VersionText;
