//! What a component is, and where it stands.

ghost use Rattle.std.specs.Prelude.{◌≡◌, ◌≤◌, length};
ghost use Rattle.std.specs.Char.{is_ascii_digit};
ghost use Rattle.std.specs.List.{list_all, AllPass};
ghost use Rattle.version_order.specs.Component.{word_of, is_number, value_of, number_of, rank_of, component_cmp};
ghost use Rattle.version_order.specs.Order.{stage_of};
ghost use Rattle.version_order.specs.Prefix.{is_same};
ghost use Rattle.version_order.specs.HeldRanks.{seen_rank};

use std::cmp::Ordering;

/// The rank of a component: where it stands, from the lowest.
#[derive(Clone, Copy, PartialEq, Eq, PartialOrd, Ord)]
enum Rank<'a> {
    Other(&'a [u8]),
    Number(u64),
    Word(u8),
}

/// The six words that stand above all other components.
#[tactic(auto, unfolding(crate::specs::Component::word_of))]
pub(crate) fn word_of(piece: &[u8]) -> Option<u8>
    ensures { result ≡ word_of piece.now }
{
    if piece == b"develop".as_slice() {
        Some(6)
    } else if piece == b"main".as_slice() {
        Some(5)
    } else if piece == b"master".as_slice() {
        Some(4)
    } else if piece == b"head".as_slice() {
        Some(3)
    } else if piece == b"trunk".as_slice() {
        Some(2)
    } else if piece == b"stable".as_slice() {
        Some(1)
    } else {
        None
    }
}

/// The stages of a pre-release.
#[tactic(auto, unfolding(crate::specs::Order::stage_of))]
pub(crate) fn stage_of(piece: &[u8]) -> Option<u8>
    ensures { result ≡ stage_of piece.now }
{
    if piece == b"alpha".as_slice() {
        Some(1)
    } else if piece == b"beta".as_slice() {
        Some(2)
    } else if piece == b"rc".as_slice() {
        Some(3)
    } else {
        None
    }
}

fn are_digits(piece: &[u8]) -> bool
    ensures { result ≡ list_all is_ascii_digit piece.now }
{
    piece.iter().all(|b| b.is_ascii_digit())
}

/// Whether a piece is a number: more digits than 18 could be too many for 64 bits.
fn is_number(piece: &[u8]) -> bool
    ensures { result ≡ is_number piece.now }
{
    !piece.is_empty() && piece.len() <= 18 && are_digits(piece)
}

/// The number that digits write.
fn value_of(digits: &[u8]) -> u64
    requires short { length digits.now ≤ 18 }
    requires digits { AllPass is_ascii_digit digits.now }
    ensures { result ≡ value_of digits.now }
{
    let mut value = 0;
    for b in digits {
        value = value * 10 + u64::from(*b - b'0');
    }
    value
}

/// The number that a piece writes.
#[tactic(auto, unfolding(crate::specs::Component::number_of))]
pub(crate) fn number_of(piece: &[u8]) -> Option<u64>
    ensures { result ≡ number_of piece.now }
{
    if is_number(piece) {
        Some(value_of(piece))
    } else {
        None
    }
}

/// The rank of a component.
#[tactic(auto, unfolding(crate::specs::Component::rank_of))]
fn rank_of(piece: &[u8]) -> Rank<'_>
    ensures { seen_rank result ≡ rank_of piece.now }
{
    match (word_of(piece), number_of(piece)) {
        (Some(word), _) => Rank::Word(word),
        (None, Some(number)) => Rank::Number(number),
        (None, None) => Rank::Other(piece),
    }
}

/// By their ranks.
pub(crate) fn compare_components(a: &[u8], b: &[u8]) -> Ordering
    ensures { result ≡ component_cmp a.now b.now }
{
    rank_of(a).cmp(&rank_of(b))
}

/// Whether two components are the same: `01` is the same as `1`.
#[tactic(auto, unfolding(crate::specs::Prefix::is_same))]
pub(crate) fn is_same(a: &[u8], b: &[u8]) -> bool
    ensures { result ≡ is_same a.now b.now }
{
    match (number_of(a), number_of(b)) {
        (Some(m), Some(n)) => m == n,
        (None, None) => a == b,
        _ => false,
    }
}
