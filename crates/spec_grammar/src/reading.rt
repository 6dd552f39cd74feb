//! Reading a text from the left, item by item.

ghost use Rattle.std.specs.Prelude.{◌≡◌, None, IfOk, IfErr};
ghost use Rattle.spec_grammar.specs.Right.{before_item, may_name};
ghost use Rattle.spec_grammar.specs.Forms.{form_at};
ghost use Rattle.spec_grammar.specs.Locals.{IsAllowedItem, IsFaultHere};
ghost use Rattle.spec_grammar.specs.Reading.{Spells, first_draft};
ghost use Rattle.spec_grammar.specs.Faults.{IsFault};

use crate::draft::Draft;
use crate::forms::form_at;
use crate::item::SpecItem;
use crate::mode::{Before, Mode};
use crate::read_item::{moved, read_item};
use crate::signs::white_length;
use crate::{Spec, SpecFault};
use plain_data::List;
use std::alloc::Global;

/// What stands before the next item.
fn before_item(item: &SpecItem) -> Before
    ensures { result ≡ before_item item.now }
{
    match item {
        SpecItem::Caret => Before::Caret,
        _ => Before::Inside,
    }
}

/// The item at the front that is read and may stand here, behind white space or not, and its length.
fn next_item(
    alloc: Global,
    mode: Mode,
    before: Before,
    gap: bool,
    text: &[u8],
) -> Result<(SpecItem, usize), SpecFault>
    ensures found { IfOk result (λ found. IsAllowedItem mode before gap text.now found.0 found.1
        × (form_at mode (may_name mode before gap) text.now ≡ None)) }
    ensures fault { IfErr result (λ fault. IsFaultHere mode before gap text.now fault) }
{
    if let Some(form) = form_at(mode, mode.may_name(before, gap), text) {
        return Err(SpecFault::Unsupported(0, form));
    }
    read_item(alloc, mode, before, gap, text)
}

/// The specs that a text spells, read into a draft that has nothing yet.
fn read_items(
    alloc: Global,
    mode: Mode,
    text: &[u8],
    draft: &mut Draft,
) -> Result<List<Spec>, SpecFault>
    requires { draft.old ≡ first_draft mode }
    ensures found { IfOk result (λ specs. Spells mode text.now specs) }
    ensures fault { IfErr result (λ fault. IsFault mode text.now fault) }
{
    let mut before = Before::Start;
    let mut at = white_length(text);
    let mut gap = at > 0;
    while at < text.len() {
        let (item, len) = match next_item(alloc, mode, before, gap, &text[at..]) {
            Ok(found) => found,
            Err(fault) => return Err(moved(at, fault)),
        };
        before = before_item(&item);
        if !draft.take(alloc, item)? {
            return Err(SpecFault::TwiceSet(at as u64));
        }
        at += len;
        let white = white_length(&text[at..]);
        gap = white > 0;
        at += white;
    }
    match draft.take_specs(alloc)? {
        Some(specs) => Ok(specs),
        None => Err(SpecFault::Expected(at as u64)),
    }
}

/// The specs that a text spells.
pub(crate) fn read_text(alloc: Global, mode: Mode, text: &[u8]) -> Result<List<Spec>, SpecFault>
    ensures found { IfOk result (λ specs. Spells mode text.now specs) }
    ensures fault { IfErr result (λ fault. IsFault mode text.now fault) }
{
    let mut draft = Draft::begin(alloc, mode);
    let read = read_items(alloc, mode, text, &mut draft);
    drop(draft);
    read
}
