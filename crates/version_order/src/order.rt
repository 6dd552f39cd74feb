//! The order of versions, and their prefixes, over their texts.
//!
//! A text is read from the left, one component at a time, and no list of components is made. So the
//! end of a release is found by looking two components ahead.

ghost use Rattle.std.specs.Prelude.{◌≡◌, ◌<◌, ◌∷◌, [], length, IfSome, IfNone};
ghost use Rattle.std.specs.Cmp.Lexicographic.{slice_cmp};
ghost use Rattle.version_order.specs.Pieces.{pieces};
ghost use Rattle.version_order.specs.Component.{component_cmp};
ghost use Rattle.version_order.specs.Order.{staged, pre_release, release, pre_cmp, version_cmp};
ghost use Rattle.version_order.specs.Prefix.{is_prefix, is_special};

use crate::component::{compare_components, is_same, number_of, stage_of, word_of};
use crate::pieces::next_piece;
use std::cmp::Ordering;

/// The stage and the number of a text whose components are these two and no more.
#[tactic(auto, unfolding(crate::specs::Order::staged))]
fn staged(text: &[u8]) -> Option<(u8, u64)>
    ensures { result ≡ staged (pieces text.now) }
{
    let (stage, rest) = next_piece(text)?;
    let (number, rest) = next_piece(rest)?;
    if next_piece(rest).is_some() {
        return None;
    }
    let stage = stage_of(stage)?;
    Some((stage, number_of(number)?))
}

/// The pre-release of a version, its stage and its number.
#[tactic(auto, using(crate::proofs::ReleaseLaws::releases))]
fn pre_release(text: &[u8]) -> Option<(u8, u64)>
    ensures { result ≡ pre_release (pieces text.now) }
{
    let mut rest = text;
    while let Some((_, after)) = next_piece(rest) {
        if let Some(found) = staged(rest) {
            return Some(found);
        }
        rest = after;
    }
    None
}

/// A version without a pre-release stands above those with one.
fn compare_pre_releases(a: Option<(u8, u64)>, b: Option<(u8, u64)>) -> Ordering
    ensures { result ≡ pre_cmp a b }
{
    match (a, b) {
        (None, None) => Ordering::Equal,
        (None, Some(_)) => Ordering::Greater,
        (Some(_), None) => Ordering::Less,
        (Some(a), Some(b)) => a.cmp(&b),
    }
}

/// The first component of the release, and the text after it.
#[tactic(auto, using(crate::proofs::ReleaseLaws::releases))]
fn next_released(text: &[u8]) -> Option<(&[u8], &[u8])>
    ensures none { IfNone result (release (pieces text.now) ≡ []) }
    ensures some { IfSome result (λ x. release (pieces text.now) ≡ x.0.now
        ∷ release (pieces x.1.now)) }
    ensures shorter { IfSome result (λ x. length x.1.now < length text.now) }
{
    if staged(text).is_some() {
        return None;
    }
    next_piece(text)
}

/// Component by component, a proper prefix being smaller.
fn compare_releases(a: &[u8], b: &[u8]) -> Ordering
    ensures { result ≡ slice_cmp component_cmp (release (pieces a.now)) (release (pieces b.now)) }
{
    let mut left = a;
    let mut right = b;
    while let Some((x, left_rest)) = next_released(left) {
        let Some((y, right_rest)) = next_released(right) else {
            return Ordering::Greater;
        };
        let order = compare_components(x, y);
        if order != Ordering::Equal {
            return order;
        }
        left = left_rest;
        right = right_rest;
    }
    if next_released(right).is_some() {
        Ordering::Less
    } else {
        Ordering::Equal
    }
}

/// Where one version stands to another.
#[tactic(auto, unfolding(crate::specs::Order::version_cmp))]
pub(crate) fn compare(a: &[u8], b: &[u8]) -> Ordering
    ensures { result ≡ version_cmp a.now b.now }
{
    match compare_releases(a, b) {
        Ordering::Equal => compare_pre_releases(pre_release(a), pre_release(b)).then(a.cmp(b)),
        order => order,
    }
}

/// Whether the components of one version are the front of another's.
pub(crate) fn is_prefix(a: &[u8], b: &[u8]) -> bool
    ensures { result ≡ is_prefix a.now b.now }
{
    let mut left = a;
    let mut right = b;
    while let Some((x, left_rest)) = next_piece(left) {
        let Some((y, right_rest)) = next_piece(right) else {
            return false;
        };
        if !is_same(x, y) {
            return false;
        }
        left = left_rest;
        right = right_rest;
    }
    true
}

/// Whether some component is one of the six words above all others.
pub(crate) fn is_special(text: &[u8]) -> bool
    ensures { result ≡ is_special text.now }
{
    let mut rest = text;
    while let Some((piece, after)) = next_piece(rest) {
        if word_of(piece).is_some() {
            return true;
        }
        rest = after;
    }
    false
}
