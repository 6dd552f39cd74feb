//! The first place of each text in a list.
ghost use Rattle.std.specs.Prelude.{◌≡◌, map, IfOk};
ghost use Rattle.std.specs.List.{list_any, position_or_len};
ghost use Rattle.std.specs.Str.{bytes_eq};
ghost use Rattle.keyed_lists.specs.Lent.{IsIndexOf};
ghost use Rattle.text_places.specs.Places.{AreNumbered, numbers_of, numbered, texts_of};

use keyed_lists::TextIndex;
use std::alloc::{AllocError, Global};
use std::marker::Model;

// Each text with its number.
fn numbered<'a>(alloc: Global, texts: &[&'a str]) -> Result<Vec<(&'a str, usize)>, AllocError>
    ensures { IfOk result (λ placed. numbers_of placed.items
        ≡ numbered 0 (map (λ text. text.now) texts.now)) }
{
    let mut placed = Vec::new(alloc);
    for (place, text) in texts.iter().enumerate() {
        placed.push((*text, place))?;
    }
    Ok(placed)
}

/// Each text with its place.
pub fn with_places<'a>(
    alloc: Global,
    texts: &[&'a str],
) -> Result<Vec<(&'a str, usize)>, AllocError>
    ensures numbered { IfOk result (λ placed. AreNumbered placed.items) }
    ensures texts { IfOk result (λ placed. texts_of placed.items
        ≡ map (λ text. text.now) texts.now) }
{
    numbered(alloc, texts)
}

fn by_text<'a>(
    alloc: Global,
    placed: &'a [(&'a str, usize)],
) -> Result<TextIndex<'a, (&'a str, usize)>, AllocError>
    ensures { IfOk result (IsIndexOf (λ p. p.0.now) placed.now) }
{
    let mut entries = Vec::new(alloc);
    for one in placed {
        entries.push((one.0, one))?;
    }
    TextIndex::new(entries)
}

/// Texts with their places, found by the texts, seen as the list of the texts.
#[derive(Drop)]
pub struct TextPlaces<'a> {
    placed: &'a [(&'a str, usize)],
    index: TextIndex<'a, (&'a str, usize)>,
}

impl<'a> Model for TextPlaces<'a> {
    ghost use Rattle.std.specs.Prelude.{List, ℕ};
    ghost use Rattle.keyed_lists.specs.Lent.{IsIndexOf};
    ghost use Rattle.text_places.specs.Places.{AreNumbered, texts_of};

    ghost Value = { List (List ℕ) };

    ghost view = { λ places. texts_of places.placed.now };

    ghost invariant = { λ places. record { numbered : AreNumbered places.placed.now; index : IsIndexOf (λ p. p.0.now) places.placed.now places.index } };
}

impl<'a> TextPlaces<'a> {
    /// The index of texts that stand with their places.
    ///
    /// Takes n log n comparisons for n texts.
    pub fn new(alloc: Global, placed: &'a [(&'a str, usize)]) -> Result<TextPlaces<'a>, AllocError>
        requires { AreNumbered placed.now }
        ensures { IfOk result (λ places. places ≡ texts_of placed.now) }
    {
        let index = by_text(alloc, placed)?;
        Ok(TextPlaces { placed, index })
    }

    /// The first place of a text, or the number of texts.
    ///
    /// Takes two binary searches.
    pub fn of(&self, text: &str) -> usize
        ensures { result ≡ position_or_len (bytes_eq text.now) self.now }
    {
        match self.index.of(text) {
            [] => self.placed.len(),
            [first, ..] => first.1.1,
        }
    }

    /// Whether the text is among them.
    ///
    /// Takes two binary searches.
    pub fn has(&self, text: &str) -> bool
        ensures { result ≡ list_any (bytes_eq text.now) self.now }
    {
        !self.index.of(text).is_empty()
    }
}
