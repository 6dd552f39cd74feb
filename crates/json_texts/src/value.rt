//! Values.

ghost use Rattle.std.specs.Prelude.{◌≡◌};
ghost use Rattle.std.specs.List.{list_all, list_any};
ghost use Rattle.spec_grammar.specs.Keys.{is_colon};
ghost use Rattle.spec_grammar.specs.Meaning.{truth};
ghost use Rattle.spec_grammar.specs.Signs.{is_value, is_value_byte};
ghost use Rattle.json_texts.specs.Forms.{value_meaning, plain_meaning};

use json_readers::TextForm;
use spec_grammar::is_name_byte;

/// VALUE: letters, digits and `_ - + . : /`, one or more. `True` means `true`, `False` means
/// `false`, and every other value itself.
#[derive(Clone, Copy)]
pub struct Value;

impl TextForm for Value {
    ghost means = { λ _. value_meaning };

    fn meaning<'t>(&self, text: &'t str) -> Option<&'t str> {
        if is_value(text.as_bytes()) {
            Some(truth(text))
        } else {
            None
        }
    }
}

/// VALUE without `:`.
#[derive(Clone, Copy)]
pub struct PlainValue;

impl TextForm for PlainValue {
    ghost means = { λ _. plain_meaning };

    fn meaning<'t>(&self, text: &'t str) -> Option<&'t str> {
        if has_colon(text.as_bytes()) {
            None
        } else {
            Value.meaning(text)
        }
    }
}

/// `True` and `False` as they mean.
fn truth(text: &str) -> &str
    ensures { result.now ≡ truth text.now }
{
    if text == "True" {
        "true"
    } else if text == "False" {
        "false"
    } else {
        text
    }
}

fn is_value(text: &[u8]) -> bool
    ensures { result ≡ is_value text.now }
{
    !text.is_empty() && are_value_bytes(text)
}

fn are_value_bytes(text: &[u8]) -> bool
    ensures { result ≡ list_all is_value_byte text.now }
{
    text.iter().all(|b| is_value_byte(*b))
}

fn is_value_byte(b: u8) -> bool
    ensures { result ≡ is_value_byte b }
{
    is_name_byte(b) || b == b'+' || b == b'.' || b == b':' || b == b'/'
}

fn has_colon(text: &[u8]) -> bool
    ensures { result ≡ list_any is_colon text.now }
{
    text.iter().any(|b| *b == b':')
}
