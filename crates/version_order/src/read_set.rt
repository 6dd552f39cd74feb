//! The items that a text writes.

ghost use Rattle.std.specs.Prelude.{◌≡◌, ◌<◌, ◌≤◌, ◌^◌, length, IfOk, IfErr, IfSome, None, MatchOption, ◌∷◌};
ghost use Rattle.std.specs.List.{prefix_len};
ghost use Rattle.version_order.specs.Signs.{is_version_byte, IsVersion};
ghost use Rattle.version_order.specs.Cut.{end_of, after_low, first_item, front, behind};
ghost use Rattle.version_order.specs.Items.{Reads, IsItem, IsList, written, spell, spell_more, first_empty};
ghost use Rattle.version_order.specs.Faults.{IsSetFault};
ghost use Rattle.version_order.specs.declared.item.Item;

use crate::reading::is_version_byte;
use crate::scan::{is_final, scan};
use crate::{Item, Version, VersionSetFault};
use plain_data::List;
use std::alloc::{AllocError, Global};

/// How many bytes at the front may stand in a version.
fn version_length(text: &[u8]) -> usize
    ensures bound { result ≤ length text.now }
    ensures value { result ≡ prefix_len is_version_byte text.now }
{
    text.iter().take_while(|b| is_version_byte(**b)).count()
}

/// The longest front of bytes that may stand in a version, and what stands behind it.
#[tactic(auto, unfolding(crate::specs::Cut::front, crate::specs::Cut::behind))]
fn cut(text: &[u8]) -> (&[u8], &[u8])
    ensures front { result.0.now ≡ front text.now }
    ensures behind { result.1.now ≡ behind text.now }
{
    text.split_at(version_length(text))
}

/// The end of a range.
fn end_of(alloc: Global, bytes: &[u8]) -> Result<Option<Version>, AllocError>
    requires { IfSome (end_of bytes.now) IsVersion }
    ensures { IfOk result (λ end. end ≡ end_of bytes.now) }
{
    if bytes.is_empty() {
        return Ok(None);
    }
    Ok(Some(Version::of_bytes(alloc, bytes)?))
}

/// The item that `=` begins, and what stands behind it.
fn exact_item(alloc: Global, text: &[u8]) -> Result<(Item, &[u8]), AllocError>
    requires { IsVersion (front text.now) }
    ensures item { IfOk result (λ found. found.0 ≡ Item.Exact (front text.now)) }
    ensures rest { IfOk result (λ found. found.1.now ≡ behind text.now) }
{
    let (version, rest) = cut(text);
    Ok((Item::Exact(Version::of_bytes(alloc, version)?), rest))
}

/// The item that begins with these bytes of a version, or none, and what stands behind it.
fn low_item<'a>(alloc: Global, low: &[u8], rest: &'a [u8]) -> Result<(Item, &'a [u8]), AllocError>
    requires { IsItem (after_low low.now rest.now).0 }
    ensures item { IfOk result (λ found. found.0 ≡ (after_low low.now rest.now).0) }
    ensures rest { IfOk result (λ found. found.1.now ≡ (after_low low.now rest.now).1) }
{
    if let [b':', rest @ ..] = rest {
        let (high, rest) = cut(rest);
        let low = end_of(alloc, low)?;
        return Ok((Item::Range(low, end_of(alloc, high)?), rest));
    }
    Ok((Item::Prefix(Version::of_bytes(alloc, low)?), rest))
}

/// What stands behind `=` at the front of a text.
#[tactic(auto, unfolding(crate::specs::Cut::first_item))]
fn behind_equals(text: &[u8]) -> Option<&[u8]>
    ensures { MatchOption result (first_item text.now ≡ after_low (front text.now)
        (behind text.now)) (λ rest. text.now ≡ 61 ∷ rest.now) }
{
    match text {
        [b'=', rest @ ..] => Some(rest),
        _ => None,
    }
}

/// The first item of a LIST, and what stands behind it.
#[tactic(auto, unfolding(crate::specs::Cut::first_item), using(crate::proofs::FirstLaws::exact_right, crate::proofs::FirstLaws::low_right))]
fn first_item(alloc: Global, text: &[u8]) -> Result<(Item, &[u8]), AllocError>
    requires { IsList text.now }
    ensures item { IfOk result (λ found. found.0 ≡ (first_item text.now).0) }
    ensures rest { IfOk result (λ found. found.1.now ≡ (first_item text.now).1) }
{
    if let Some(rest) = behind_equals(text) {
        return exact_item(alloc, rest);
    }
    let (low, rest) = cut(text);
    low_item(alloc, low, rest)
}

/// The items of a LIST.
fn items_of(alloc: Global, text: &[u8]) -> Result<List<Item>, AllocError>
    requires { IsList text.now }
    ensures { IfOk result (λ items. Reads text.now items) }
{
    let mut items = List::new(alloc);
    let mut rest = text;
    loop {
        let (item, behind) = first_item(alloc, rest)?;
        items.push(item)?;
        let Some((_, next)) = behind.split_first() else {
            return Ok(items);
        };
        rest = next;
    }
}

fn written_length(end: &Option<Version>) -> usize
    ensures { result ≡ length (written end.now) }
{
    match end {
        None => 0,
        Some(version) => version.text().len(),
    }
}

/// The length of an item's text.
fn spelled_length(item: &Item) -> usize
    requires { length (spell item.now) < 2 ^ 64 }
    ensures { result ≡ length (spell item.now) }
{
    match item {
        Item::Exact(version) => 1 + version.text().len(),
        Item::Prefix(version) => version.text().len(),
        Item::Range(low, high) => written_length(low) + 1 + written_length(high),
    }
}

/// The place of the first empty range.
fn first_empty(items: &[Item]) -> Option<usize>
    requires { length (spell_more items.now) < 2 ^ 64 }
    ensures { result ≡ first_empty 0 items.now }
{
    let mut place = 0;
    for item in items {
        if item.is_empty_range() {
            return Some(place);
        }
        place += spelled_length(item) + 1;
    }
    None
}

/// The items of a LIST that has no empty range.
pub(crate) fn read_items(alloc: Global, text: &[u8]) -> Result<List<Item>, VersionSetFault>
    ensures found { IfOk result (λ items. Reads text.now items × (first_empty 0 items ≡ None)) }
    ensures fault { IfErr result (λ fault. IsSetFault text.now fault) }
{
    if text.is_empty() {
        return Err(VersionSetFault::Empty);
    }
    let (place, end) = scan(text);
    if end < text.len() || !is_final(place) {
        return Err(VersionSetFault::BadByte(end as u64));
    }
    let items = items_of(alloc, text)?;
    match first_empty(items.as_slice()) {
        Some(place) => Err(VersionSetFault::EmptyRange(place as u64)),
        None => Ok(items),
    }
}
