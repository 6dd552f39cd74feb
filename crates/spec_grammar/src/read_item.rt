//! The item that a text begins with.

ghost use Rattle.std.specs.Prelude.{◌≡◌, ◌<◌, ◌≤◌, ◌+◌, ◌^◌, ◌∷◌, length, drop, true, Some, None, IfOk, IfErr};
ghost use Rattle.version_order.specs.Items.{first_empty};
ghost use Rattle.spec_grammar.specs.Signs.{name_length};
ghost use Rattle.spec_grammar.specs.Items.{kind_at, kind_by, kind_of, mark_byte, starts_with_byte};
ghost use Rattle.spec_grammar.specs.Locals.{IsListAt, IsListFault, IsCutOff, IsItemFault, IsAllowedItem, IsItemFaultHere, refused_place, moved, Fits};

use crate::SpecFault;
use crate::item::{Kind, Mark, SpecItem};
use crate::key::key_of;
use crate::mode::{Before, Mode};
use crate::signs::{name_length, word};
use crate::values::{start_run, values_from};
use std::alloc::Global;
use version_order::{VersionSet, VersionSetFault, is_start, list_front};

/// A fault, its place counted from so many bytes earlier.
pub(crate) fn moved(by: usize, fault: SpecFault) -> SpecFault
    requires { Fits by fault }
    ensures { result ≡ moved by fault }
{
    let by = by as u64;
    match fault {
        SpecFault::Unsupported(place, form) => SpecFault::Unsupported(by + place, form),
        SpecFault::Expected(place) => SpecFault::Expected(by + place),
        SpecFault::BadVersion(place) => SpecFault::BadVersion(by + place),
        SpecFault::TwiceSet(place) => SpecFault::TwiceSet(by + place),
        SpecFault::OutOfMemory => SpecFault::OutOfMemory,
    }
}

/// The LIST at the front, and its length.
fn list(alloc: Global, text: &[u8]) -> Result<(VersionSet, usize), SpecFault>
    ensures found { IfOk result (λ found. IsListAt text.now found.0 found.1
        × (first_empty 0 found.0 ≡ None)) }
    ensures fault { IfErr result (λ fault. IsListFault text.now fault) }
{
    let (len, whole) = list_front(text);
    if !whole {
        return Err(SpecFault::Expected(len as u64));
    }
    match VersionSet::from_bytes(alloc, &text[..len]) {
        Ok(set) => Ok((set, len)),
        Err(VersionSetFault::EmptyRange(place)) => Err(SpecFault::BadVersion(place)),
        Err(VersionSetFault::OutOfMemory) => Err(SpecFault::OutOfMemory),
        Err(VersionSetFault::Empty) => unreachable!(),
        Err(VersionSetFault::BadByte(_)) => unreachable!(),
    }
}

/// `@LIST`, of which `text` is what stands behind `@`.
fn versions(alloc: Global, text: &[u8]) -> Result<(SpecItem, usize), SpecFault>
    requires { length text.now < 2 ^ 63 }
    ensures found { IfOk result (λ found. IsCutOff (64 ∷ text.now) found.0 found.1) }
    ensures fault { IfErr result (λ fault. IsItemFault (64 ∷ text.now) fault) }
{
    match list(alloc, text) {
        Ok((set, len)) => Ok((SpecItem::Versions(set), 1 + len)),
        Err(fault) => Err(moved(1, fault)),
    }
}

/// `+NAME` and the like, of which `text` is what stands behind the mark.
fn variant(alloc: Global, mark: Mark, text: &[u8]) -> Result<(SpecItem, usize), SpecFault>
    ensures found { IfOk result (λ found. IsCutOff (mark_byte mark ∷ text.now) found.0 found.1) }
    ensures fault { IfErr result (λ fault. IsItemFault (mark_byte mark ∷ text.now) fault) }
{
    let len = name_length(text);
    if len == 0 {
        return Err(SpecFault::Expected(1));
    }
    let name = word(alloc, &text[..len])?;
    Ok((SpecItem::Variant(mark, name), 1 + len))
}

/// `%NAME` with its `@LIST`, of which `text` is what stands behind `%`.
fn compiler(alloc: Global, text: &[u8]) -> Result<(SpecItem, usize), SpecFault>
    requires { length text.now < 2 ^ 63 }
    ensures found { IfOk result (λ found. IsCutOff (37 ∷ text.now) found.0 found.1) }
    ensures fault { IfErr result (λ fault. IsItemFault (37 ∷ text.now) fault) }
{
    let len = name_length(text);
    if len == 0 {
        return Err(SpecFault::Expected(1));
    }
    let (name, behind) = text.split_at(len);
    let name = word(alloc, name)?;
    if !starts_with_byte(b'@', behind) {
        return Ok((SpecItem::Compiler(name, None), 1 + len));
    }
    match list(alloc, &behind[1..]) {
        Ok((set, more)) => Ok((SpecItem::Compiler(name, Some(set)), 2 + len + more)),
        Err(fault) => Err(moved(2 + len, fault)),
    }
}

/// A NAME that is no key.
fn name(alloc: Global, text: &[u8]) -> Result<(SpecItem, usize), SpecFault>
    requires { kind_at text.now ≡ Some Kind.Name }
    ensures found { IfOk result (λ found. IsCutOff text.now found.0 found.1) }
    ensures fault { IfErr result (λ fault. IsItemFault text.now fault) }
{
    let len = name_length(text);
    let (name, behind) = text.split_at(len);
    if starts_with_byte(b':', behind) {
        return Err(SpecFault::Expected(len as u64));
    }
    if starts_with_byte(b'.', behind) {
        return Err(SpecFault::Expected(len as u64));
    }
    Ok((SpecItem::Name(word(alloc, name)?), len))
}

/// `NAME=` with its values.
fn key(alloc: Global, text: &[u8]) -> Result<(SpecItem, usize), SpecFault>
    requires { kind_at text.now ≡ Some Kind.Key }
    ensures found { IfOk result (λ found. IsCutOff text.now found.0 found.1) }
    ensures fault { IfErr result (λ fault. IsItemFault text.now fault) }
{
    let len = name_length(text);
    let (name, behind) = text.split_at(len);
    let key = key_of(name);
    let Some(start) = start_run(key) else {
        return Err(SpecFault::Expected(len as u64));
    };
    match values_from(alloc, key, start, &behind[1..]) {
        Ok((values, more)) => Ok((SpecItem::Key(word(alloc, name)?, values), len + 1 + more)),
        Err(fault) => Err(moved(len + 1, fault)),
    }
}

fn starts_with_byte(b: u8, text: &[u8]) -> bool
    ensures { result ≡ starts_with_byte b text.now }
{
    match text.first() {
        Some(first) => *first == b,
        None => false,
    }
}

/// The kind of what begins with a byte, where `rest` is behind the NAME that it begins.
fn kind_by(b: u8, rest: &[u8]) -> Option<Kind>
    ensures { result ≡ kind_by b rest.now }
{
    match b {
        b'@' => Some(Kind::Versions),
        b'+' => Some(Kind::Variant(Mark::Plus)),
        b'~' => Some(Kind::Variant(Mark::Tilde)),
        b'-' => Some(Kind::Variant(Mark::Minus)),
        b'%' => Some(Kind::Compiler),
        b'^' => Some(Kind::Caret),
        _ if is_start(b) && starts_with_byte(b'=', rest) => Some(Kind::Key),
        _ if is_start(b) => Some(Kind::Name),
        _ => None,
    }
}

/// The kind of the item at the front.
fn kind_at(text: &[u8]) -> Option<Kind>
    ensures { result ≡ kind_at text.now }
{
    match text.first() {
        Some(b) => kind_by(*b, &text[name_length(text)..]),
        None => None,
    }
}

/// `^`, of which `text` is what stands behind it.
fn caret(text: &[u8]) -> Result<(SpecItem, usize), SpecFault>
    ensures found { IfOk result (λ found. IsCutOff (94 ∷ text.now) found.0 found.1) }
    ensures fault { IfErr result (λ fault. IsItemFault (94 ∷ text.now) fault) }
{
    if starts_with_byte(b'[', text) {
        return Err(SpecFault::Expected(1));
    }
    Ok((SpecItem::Caret, 1))
}

/// The item of this kind at the front, and its length.
fn item(alloc: Global, kind: Kind, text: &[u8]) -> Result<(SpecItem, usize), SpecFault>
    requires { kind_at text.now ≡ Some kind }
    ensures found { IfOk result (λ found. IsCutOff text.now found.0 found.1) }
    ensures fault { IfErr result (λ fault. IsItemFault text.now fault) }
{
    match kind {
        Kind::Name => name(alloc, text),
        Kind::Versions => versions(alloc, &text[1..]),
        Kind::Variant(mark) => variant(alloc, mark, &text[1..]),
        Kind::Compiler => compiler(alloc, &text[1..]),
        Kind::Key => key(alloc, text),
        Kind::Caret => caret(&text[1..]),
    }
}

/// Where the text is not right, if no item of this kind may stand here: behind a NAME that could
/// stand here as an item of another kind, or else at once.
fn refused_at(mode: Mode, before: Before, gap: bool, kind: Kind, text: &[u8]) -> usize
    ensures { result ≡ refused_place mode before gap kind (name_length text.now) }
{
    let other = match kind {
        Kind::Name => Kind::Key,
        Kind::Key => Kind::Name,
        _ => return 0,
    };
    if mode.may_stand(before, gap, other) {
        name_length(text)
    } else {
        0
    }
}

/// The item at the front that may stand here, behind white space or not, and its length.
pub(crate) fn read_item(
    alloc: Global,
    mode: Mode,
    before: Before,
    gap: bool,
    text: &[u8],
) -> Result<(SpecItem, usize), SpecFault>
    ensures found { IfOk result (λ found. IsAllowedItem mode before gap text.now found.0 found.1) }
    ensures fault { IfErr result (λ fault. IsItemFaultHere mode before gap text.now fault) }
{
    let Some(kind) = kind_at(text) else {
        return Err(SpecFault::Expected(0));
    };
    if !mode.may_stand(before, gap, kind) {
        return Err(SpecFault::Expected(refused_at(mode, before, gap, kind, text) as u64));
    }
    item(alloc, kind, text)
}
