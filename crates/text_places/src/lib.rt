//! First places of texts in lists, found by binary search.
//!
//! What it is: `with_places`, texts that are lent with their places, and `TextPlaces`, the index of them.
//! What it promises: a look-up gives the first place of a text, or the number of texts, as a search from the
//! front on does.
//! What it stands on: `keyed_lists` for elements by a text of each.
//! What it must not know: what the texts name.
#![tactic(auto)]

mod places;

pub use places::{TextPlaces, with_places};
