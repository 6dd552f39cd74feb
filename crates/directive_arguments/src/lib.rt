//! Directives of recipes: what their arguments say.
//!
//! What it is: what each directive takes, what the texts in its arguments are read as, and what a variant is.
//! What it promises: the arguments of a directive say exactly what the definitions give, or have the first fault.
//! What it stands on: `recipe_values` for the values that arguments are, `spec_grammar` for the texts in them.
//! What it must not know: items and blocks of a file, the rows of a recipe, and their numbers.
#![tactic(auto)]

mod argument;
mod choice;
mod directive;
mod fault;
mod given;
mod keyword;
mod kinds;
mod names;
mod positional;
mod table;
mod text;
mod theorems;
mod variant;

pub use argument::arguments;
pub use directive::{Count, Directive, Keyword, Role};
pub use fault::ArgumentFault;
pub use given::{Given, Options, Positional};
pub use names::Names;
pub use table::directive_of;
pub use text::condition;
pub use theorems::{answer_laws, argument_laws, worked_roles};
pub use variant::{VariantShape, shape_with};
