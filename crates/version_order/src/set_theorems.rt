//! What holds of all sets of versions, and rows that show it. The bodies are empty: what is proved are
//! the contracts.

ghost use Rattle.std.specs.Prelude.{◌≡◌, ◌≢◌, ◌↔◌, ◌++◌, ◌<◌, not, length, ℕ, List, [], ◌∷◌, codes, true, false, Some, None};
ghost use Rattle.std.specs.List.{All, AllByRecursion};
ghost use Rattle.version_order.specs.Items.{IsItem, IsList, Reads, spelling, spell_more, is_empty_range, first_empty};
ghost use Rattle.version_order.specs.Sets.{item_contains, set_contains, items_overlap, sets_overlap};
ghost use Rattle.version_order.specs.Fronts.{IsBadAt};
ghost use Rattle.version_order.specs.Faults.{IsSetFault};
ghost use Rattle.version_order.specs.declared.item.Item.{Item};
ghost use Rattle.version_order.specs.declared.fault.VersionSetFault.{VersionSetFault};

/// To overlap is symmetric, and the empty ranges are the items that do not overlap themselves. `=w`
/// contains `w` alone, and overlaps what contains `w`.
pub fn set_laws()
    ensures symmetric { (a b : List Item) → sets_overlap a b ≡ sets_overlap b a }
    ensures symmetric_items { (a b : Item) → items_overlap a b ≡ items_overlap b a }
    ensures own { (item : Item) → items_overlap item item ≡ not (is_empty_range item) }
    ensures exact { (w v : List ℕ) → (item_contains (Item.Exact w) v ≡ true) ↔ (w ≡ v) }
    ensures exact_item { (w : List ℕ) (item : Item)
        → items_overlap (Item.Exact w) item ≡ item_contains item w }
    ensures exact_set { (w : List ℕ) (items : List Item)
        → sets_overlap (Item.Exact w ∷ []) items ≡ set_contains items w }
{}

/// A text writes one list of items at most, and the text of right items writes them. So a text of the
/// right form with no empty range is refused for want of memory alone, and no text has two faults
/// besides.
pub fn set_reading_laws()
    ensures one_reading { (text : List ℕ) (a b : List Item) → Reads text a → Reads text b → a ≡ b }
    ensures read_again { (items : List Item) → 0 < length items → AllByRecursion IsItem items
        → Reads (spelling items) items }
    ensures right { (text : List ℕ) (items : List Item) (fault : VersionSetFault) → Reads text items
        → first_empty 0 items ≡ None → IsSetFault text fault → fault ≡ VersionSetFault.OutOfMemory }
    ensures one_fault { (text : List ℕ) (a b : VersionSetFault) → IsSetFault text a
        → IsSetFault text b → a ≢ VersionSetFault.OutOfMemory
        → b ≢ VersionSetFault.OutOfMemory → a ≡ b }
    ensures one_place { (text : List ℕ) (p q : ℕ) → IsBadAt IsList text p
        → IsBadAt IsList text q → p ≡ q }
    // Where the first empty range stands.
    ensures first_empty { (before after : List Item) (item : Item)
        → All (λ other. is_empty_range other ≡ false) before → is_empty_range item ≡ true
        → first_empty 0 (before ++ item ∷ after) ≡ Some (length (spell_more before)) }
    ensures none_empty { (items : List Item) → All (λ item. is_empty_range item ≡ false) items
        → first_empty 0 items ≡ None }
{}

/// Rows of what sets contain and overlap, computed.
#[tactic(auto, unfolding(crate::specs::Order::version_cmp, crate::specs::Pieces::pieces, crate::specs::Order::release, crate::specs::Order::pre_release, crate::specs::Order::staged, crate::specs::Order::stage_of, crate::specs::Component::rank_of, crate::specs::Component::word_of, crate::specs::Component::number_of, crate::specs::Prefix::is_same, crate::specs::Items::is_empty_range, crate::specs::Sets::is_under, crate::specs::Sets::item_contains, crate::specs::Sets::items_overlap))]
pub fn worked_sets()
    // Each form of an item.
    ensures forms { Reads (codes "=1,2,3:4,5:,:6,:")
        (Item.Exact (codes "1") ∷ Item.Prefix (codes "2")
        ∷ Item.Range (Some (codes "3")) (Some (codes "4")) ∷ Item.Range (Some (codes "5")) None
        ∷ Item.Range None (Some (codes "6")) ∷ Item.Range None None ∷ []) }

    ensures prefix { item_contains (Item.Prefix (codes "1.2")) (codes "1.2.3") ≡ true }
    ensures not_exact { item_contains (Item.Exact (codes "1.2")) (codes "1.2.3") ≡ false }

    // A range holds what its high end is a prefix of.
    ensures high_prefix { item_contains (Item.Range None (Some (codes "1.4")))
        (codes "1.4.9") ≡ true }
    ensures no_high { item_contains (Item.Range (Some (codes "1.10")) None)
        (codes "develop") ≡ true }
    ensures within { item_contains (Item.Range (Some (codes "1.2")) (Some (codes "1")))
        (codes "1.2.5") ≡ true }
    ensures below { item_contains (Item.Range (Some (codes "1.2")) (Some (codes "1")))
        (codes "1.1") ≡ false }

    ensures empty { is_empty_range (Item.Range (Some (codes "2")) (Some (codes "1"))) ≡ true }
    ensures not_empty { is_empty_range (Item.Range (Some (codes "1.2")) (Some (codes "1")))
        ≡ false }
    ensures same_numbers { is_empty_range (Item.Range (Some (codes "1")) (Some (codes "01")))
        ≡ false }

    ensures meet { items_overlap (Item.Range None (Some (codes "3.1")))
        (Item.Range (Some (codes "3.1.2")) None) ≡ true }
    ensures apart { items_overlap (Item.Range None (Some (codes "3")))
        (Item.Range (Some (codes "4")) None) ≡ false }

    // Two items may contain one version and not overlap.
    ensures first_contains { item_contains (Item.Prefix (codes "1.0")) (codes "1.0-alpha2") ≡ true }
    ensures second_contains { item_contains (Item.Range None (Some (codes "1.0-alpha2")))
        (codes "1.0-alpha2") ≡ true }
    ensures no_overlap { items_overlap (Item.Prefix (codes "1.0"))
        (Item.Range None (Some (codes "1.0-alpha2"))) ≡ false }

    // `=01` and `=1` are two versions, and `1` has both.
    ensures two_versions { items_overlap (Item.Exact (codes "01"))
        (Item.Exact (codes "1")) ≡ false }
    ensures both { items_overlap (Item.Exact (codes "01")) (Item.Prefix (codes "1")) ≡ true }
{}

/// Faults of texts, computed.
pub fn worked_faults()
    ensures ends_early { IsSetFault (codes "1,") (VersionSetFault.BadByte 2) }
    ensures exact_range { IsSetFault (codes "=1:2") (VersionSetFault.BadByte 2) }
    ensures blank { IsSetFault (codes "1, 2") (VersionSetFault.BadByte 2) }
    ensures empty_range { IsSetFault (codes "1,2:1") (VersionSetFault.EmptyRange 2) }
{}
