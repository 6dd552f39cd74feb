//! What holds of all versions, and rows that show it. The bodies are empty: what is proved are the
//! contracts.

ghost use Rattle.std.specs.Prelude.{◌≡◌, ◌↔◌, ◌||◌, ◌++◌, ◌<◌, length, ℕ, List, [], ◌∷◌, codes, true, false, not};
ghost use Rattle.std.specs.Char.{is_ascii_digit};
ghost use Rattle.std.specs.List.{list_all};
ghost use Rattle.std.specs.Cmp.{IsTotalOrder};
ghost use Rattle.std.specs.Ordering.{is_eq};
ghost use Rattle.std.specs.declared.cmp.Ordering.TheVariants.{Equal};
ghost use Rattle.version_order.specs.Signs.{is_separator, IsVersion};
ghost use Rattle.version_order.specs.Fronts.{IsBadAt};
ghost use Rattle.version_order.specs.Faults.{IsVersionFault};
ghost use Rattle.version_order.specs.Pieces.{pieces};
ghost use Rattle.version_order.specs.Component.{component_cmp};
ghost use Rattle.version_order.specs.Order.{version_cmp, Rise};
ghost use Rattle.version_order.specs.Prefix.{is_same, is_prefix, is_special};
ghost use Rattle.version_order.specs.declared.fault.VersionFault.{VersionFault};

/// The order of versions is total, and only equal texts are equal in it. Components are the same
/// for a prefix exactly where neither is above the other.
pub fn laws()
    ensures total { IsTotalOrder version_cmp }
    ensures equal { (a b : List ℕ) → (version_cmp a b ≡ Equal) ↔ (a ≡ b) }
    ensures same { (a b : List ℕ) → is_same a b ≡ is_eq (component_cmp a b) }
{}

/// A version is refused for want of memory alone. A text has one place at most where it goes wrong,
/// and some byte stands there.
pub fn reading_laws()
    ensures right { (text : List ℕ) (fault : VersionFault) → IsVersion text
        → IsVersionFault text fault → fault ≡ VersionFault.OutOfMemory }
    ensures one_place { (text : List ℕ) (p q : ℕ) → IsBadAt IsVersion text p
        → IsBadAt IsVersion text q → p ≡ q }
    ensures within { (text : List ℕ) (p : ℕ) → IsVersionFault text (VersionFault.BadByte p)
        → p < length text }
{}

/// A text is cut at each separator, which goes, and at each change between digits and other bytes,
/// and nowhere else.
pub fn cutting_laws()
    ensures at_separator { (front rest : List ℕ) (b : ℕ) → is_separator b ≡ true
        → pieces (front ++ b ∷ rest) ≡ pieces front ++ pieces rest }
    ensures at_change { (front rest : List ℕ) (b c : ℕ) → (is_ascii_digit b ≡ is_ascii_digit c → ⊥)
        → pieces (front ++ b ∷ c ∷ rest) ≡ pieces (front ++ b ∷ []) ++ pieces (c ∷ rest) }
    ensures digits { (b : ℕ) (rest : List ℕ) → list_all is_ascii_digit (b ∷ rest) ≡ true
        → pieces (b ∷ rest) ≡ (b ∷ rest) ∷ [] }
    ensures letters { (b : ℕ) (rest : List ℕ)
        → list_all (λ c. not (is_ascii_digit c || is_separator c)) (b ∷ rest) ≡ true
        → pieces (b ∷ rest) ≡ (b ∷ rest) ∷ [] }
{}

/// Rows of the order, computed.
#[tactic(auto, unfolding(crate::specs::Order::version_cmp, crate::specs::Pieces::pieces, crate::specs::Order::release, crate::specs::Order::pre_release, crate::specs::Order::staged, crate::specs::Order::stage_of, crate::specs::Component::rank_of, crate::specs::Component::word_of, crate::specs::Component::number_of, crate::specs::Prefix::is_same))]
pub fn worked_order()
    // Pre-releases stand below their release.
    ensures rising { Rise (codes "1.0-alpha1" ∷ codes "1.0-beta1" ∷ codes "1.0-rc1" ∷ codes "1.0"
        ∷ codes "1.0.1" ∷ codes "2" ∷ codes "develop" ∷ []) }
    // The six words, above numbers.
    ensures words { Rise (codes "2" ∷ codes "stable" ∷ codes "trunk" ∷ codes "head" ∷ codes "master"
        ∷ codes "main" ∷ codes "develop" ∷ []) }
    // Numbers by their values, and other pieces below them.
    ensures numbers { Rise (codes "1.b" ∷ codes "1.9" ∷ codes "1.10" ∷ []) }
    // 18 digits are a number; 19 are a text, and so below each number.
    ensures digits { Rise (codes "1000000000000000000" ∷ codes "0" ∷ codes "999999999999999999" ∷ []) }
    // The same components, told apart by the bytes.
    ensures zeros { Rise (codes "1.01" ∷ codes "1.1" ∷ []) }

    ensures mixed { pieces (codes "1.2b3") ≡ codes "1" ∷ codes "2" ∷ codes "b" ∷ codes "3" ∷ [] }
    ensures empty_pieces { pieces (codes "_1..2-") ≡ codes "1" ∷ codes "2" ∷ [] }

    // `1.0` is a prefix of `1.0-rc1`, and yet above it; the pre-release counts in a prefix.
    ensures prefix { is_prefix (codes "1.0") (codes "1.0-rc1") ≡ true }
    ensures no_prefix { is_prefix (codes "1.0-rc1") (codes "1.0") ≡ false }
    ensures same_numbers { is_prefix (codes "1.01") (codes "1.1.5") ≡ true }

    ensures special { is_special (codes "1-develop") ≡ true }
    ensures not_special { is_special (codes "1-developer") ≡ false }
{}
