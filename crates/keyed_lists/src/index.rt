// Elements by a text of each.
ghost use Rattle.std.specs.Prelude.{◌≡◌, ◌≤◌, List, ℕ, length, IfOk};
ghost use Rattle.std.specs.List.{slice_range};
ghost use Rattle.std.specs.List.Sorted.{IsSortedBy};
ghost use Rattle.std.specs.Ordering.{is_lt};
ghost use Rattle.keyed_lists.specs.OfVariantValues.Texts.{byte_cmp};
ghost use Rattle.keyed_lists.specs.Lent.{lent, with_text};

use std::alloc::AllocError;
use std::marker::Model;

/// Elements that are lent, each with a text, seen as the list of them in byte order of the texts. Several may have one
/// text.
#[derive(Drop)]
pub struct TextIndex<'a, T> {
    entries: Vec<(&'a str, &'a T)>,
}

impl<'a, T> Model for TextIndex<'a, T> {
    ghost use Rattle.std.specs.Prelude.{List, ℕ};
    ghost use Rattle.std.specs.List.Sorted.{IsSortedBy};
    ghost use Rattle.std.specs.Ordering.{is_lt};
    ghost use Rattle.keyed_lists.specs.OfVariantValues.Texts.{byte_cmp};
    ghost use Rattle.keyed_lists.specs.Lent.{lent};

    ghost Value = { List (List ℕ × T) };

    ghost view = { λ index. lent index.entries.items };

    ghost invariant = { λ index. IsSortedBy (λ a b. is_lt (byte_cmp a.0.now b.0.now)) index.entries.items };
}

impl<'a, T> TextIndex<'a, T> {
    /// The index of these elements, each behind its text.
    ///
    /// Takes n log n comparisons.
    pub fn new(entries: Vec<(&'a str, &'a T)>) -> Result<TextIndex<'a, T>, AllocError>
        ensures { IfOk result (λ index. (text : List ℕ)
            → with_text text index ≡ with_text text (lent entries.entry.items)) }
    {
        let mut entries = entries;
        entries.sort_by(|a, b| a.0.cmp(b.0))?;
        Ok(TextIndex { entries })
    }

    /// The elements with a text, in the order in which they were given.
    ///
    /// Takes two binary searches.
    pub fn of(&self, text: &str) -> &[(&'a str, &'a T)]
        ensures { lent result.now ≡ with_text text.now self.now }
    {
        run_of(self.entries.as_slice(), text)
    }
}

fn run_of<'e, 'a, T>(entries: &'e [(&'a str, &'a T)], text: &str) -> &'e [(&'a str, &'a T)]
    requires { IsSortedBy (λ a b. is_lt (byte_cmp a.0.now b.0.now)) entries.now }
    ensures { lent result.now ≡ with_text text.now (lent entries.now) }
{
    let (first, end) = bounds_of(entries, text);
    &entries[first..end]
}

// Where the elements with a text begin and end.
fn bounds_of<T>(entries: &[(&str, &T)], text: &str) -> (usize, usize)
    requires { IsSortedBy (λ a b. is_lt (byte_cmp a.0.now b.0.now)) entries.now }
    ensures bounds { result.0 ≤ result.1 }
    ensures within { result.1 ≤ length entries.now }
    ensures run { lent (slice_range entries.now result.0 result.1)
        ≡ with_text text.now (lent entries.now) }
{
    let first = entries.partition_point(|entry| entry.0.cmp(text).is_lt());
    let end = entries.partition_point(|entry| entry.0.cmp(text).is_le());
    (first, end)
}
