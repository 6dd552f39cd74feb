//! Names.

ghost use Rattle.json_texts.specs.Forms.{name_meaning};

use json_readers::TextForm;
use spec_grammar::is_name;

/// NAME: a letter, a digit or `_`, and then letters, digits, `_` and `-`. It means itself.
#[derive(Clone, Copy)]
pub struct Name;

impl TextForm for Name {
    ghost means = { λ _. name_meaning };

    fn meaning<'t>(&self, text: &'t str) -> Option<&'t str> {
        if is_name(text.as_bytes()) {
            Some(text)
        } else {
            None
        }
    }
}
