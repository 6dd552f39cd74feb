//! Forms that are not read.

ghost use Rattle.std.specs.Prelude.{◌≡◌};
ghost use Rattle.spec_grammar.specs.Forms.{form_at, form_behind, form_of_sign, is_flags};

use crate::Form;
use crate::key::{KeyKind, key_of};
use crate::mode::Mode;
use crate::signs::name_length;

fn is_flags(key: KeyKind) -> bool
    ensures { result ≡ is_flags key }
{
    matches!(key, KeyKind::Flags)
}

/// The form that a NAME and what is behind it begin.
#[tactic(auto, unfolding(crate::specs::Forms::form_behind))]
fn form_behind(mode: Mode, named: bool, name: &[u8], rest: &[u8]) -> Option<Form>
    ensures { result ≡ form_behind mode named name.now rest.now }
{
    if rest.starts_with(b"==") {
        Some(Form::Propagation)
    } else if rest.starts_with(b":=") {
        Some(Form::ConcreteAssign)
    } else if rest.starts_with(b"=*") {
        Some(Form::AnyValue)
    } else if rest.starts_with(b"=\"") || rest.starts_with(b"='") {
        Some(Form::Quoted)
    } else if rest.starts_with(b"=") && is_flags(key_of(name)) {
        Some(Form::Flags)
    } else if rest.starts_with(b".") && named {
        Some(Form::Namespace)
    } else if rest.starts_with(b"=") && !mode.may_have_all() {
        Some(Form::ProvidesForm)
    } else {
        None
    }
}

/// The form that a sign begins.
#[tactic(auto, unfolding(crate::specs::Forms::form_of_sign))]
fn form_of_sign(mode: Mode, text: &[u8]) -> Option<Form>
    ensures { result ≡ form_of_sign mode text.now }
{
    if text.starts_with(b"++") || text.starts_with(b"~~") || text.starts_with(b"--") {
        Some(Form::Propagation)
    } else if text.starts_with(b"/") {
        Some(Form::Reference)
    } else if text.starts_with(b"^[") {
        Some(Form::EdgeAttributes)
    } else if text.starts_with(b"^") && !mode.may_nest() {
        Some(Form::NestedDependency)
    } else if (text.starts_with(b"+")
        || text.starts_with(b"~")
        || text.starts_with(b"-")
        || text.starts_with(b"%"))
        && !mode.may_have_all()
    {
        Some(Form::ProvidesForm)
    } else {
        None
    }
}

/// The form that the item at the front begins, where it is one that is not read.
#[tactic(auto, unfolding(crate::specs::Forms::form_at))]
pub(crate) fn form_at(mode: Mode, named: bool, text: &[u8]) -> Option<Form>
    ensures { result ≡ form_at mode named text.now }
{
    let len = name_length(text);
    if len == 0 {
        return form_of_sign(mode, text);
    }
    let (name, rest) = text.split_at(len);
    form_behind(mode, named, name, rest)
}
