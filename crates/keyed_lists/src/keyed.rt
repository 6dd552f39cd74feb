// Searches in lists in order by a text.
ghost use Rattle.std.specs.Prelude.{◌≡◌, ◌↔◌, None, IfOk, OnErr, IsTrue, MatchResult, Contains, map, if◌then◌else◌};
ghost use Rattle.std.specs.Option.{option_copied};
ghost use Rattle.variant_values.specs.Texts.{byte_cmp};
ghost use Rattle.keyed_lists.specs.Keyed.{IsInOrder, IsPlaceOf, IsGapFor, find_key, with_one};

use plain_data::Word;
use std::alloc::AllocError;

/// What stands in a list in byte order of its key, a text.
pub trait Keyed {
    ghost use Rattle.std.specs.Prelude.{◌≡◌, ℕ, List};

    ghost key_of: { Self → List ℕ };

    /// Its key.
    fn key(&self) -> &str
        ensures { result.now ≡ key_of self.now };
}

/// A pair has its first part as its key.
impl<V> Keyed for (Word, V) {
    ghost key_of = { λ pair. pair.0 };

    fn key(&self) -> &str {
        self.0.as_str()
    }
}

/// Where the element with this key stands, or else where it would stand.
pub fn place_of<T: Keyed>(items: &[T], key: &str) -> Result<usize, usize>
    requires { IsInOrder byte_cmp T.key_of items.now }
    ensures { MatchResult result (IsPlaceOf byte_cmp T.key_of items.now key.now)
        (IsGapFor byte_cmp T.key_of items.now key.now) }
{
    items.binary_search_by(|item| item.key().cmp(key))
}

/// Whether an element has this key.
pub fn has_key<T: Keyed>(items: &[T], key: &str) -> bool
    requires { IsInOrder byte_cmp T.key_of items.now }
    ensures { IsTrue result ↔ Contains (map T.key_of items.now) key.now }
{
    place_of(items, key).is_ok()
}

/// The element with this key.
pub fn find<'a, T: Keyed>(items: &'a [T], key: &str) -> Option<&'a T>
    requires { IsInOrder byte_cmp T.key_of items.now }
    ensures { option_copied result ≡ find_key byte_cmp T.key_of items.now key.now }
{
    match place_of(items, key) {
        Ok(place) => Some(&items[place]),
        Err(_) => None,
    }
}

/// Puts an element at the place of its key; `false`, and nothing is changed, exactly where its key is
/// there.
pub fn insert<T: Keyed + Drop>(items: &mut Vec<T>, item: T) -> Result<bool, AllocError>
    requires { IsInOrder byte_cmp T.key_of items.old.items }
    ensures added { IfOk result (λ added. IsTrue added
        ↔ (find_key byte_cmp T.key_of items.old.items (T.key_of item) ≡ None)) }
    ensures new { IfOk result (λ added. items.new.items
        ≡ (if added then with_one byte_cmp T.key_of items.old.items item else items.old.items)) }
    ensures err { OnErr result (items.new.items ≡ items.old.items) }
{
    match place_of(items.as_slice(), item.key()) {
        Ok(_) => Ok(false),
        Err(place) => {
            items.insert(place, item)?;
            Ok(true)
        }
    }
}
