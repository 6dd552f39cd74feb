//! The places where a rule is broken.
ghost use Rattle.std.specs.Prelude.{◌≡◌, ◌++◌, Some, OnOk};
ghost use Rattle.std.specs.Option.{option_copied};
ghost use Rattle.graph_rules.specs.Verdict.{is_before, least, lesser_of};
ghost use Rattle.graph_judge.specs.Places.{unless};

use plain_data::Word;
use std::alloc::{AllocError, Global};

/// Adds the place unless the rule is kept there.
pub(crate) fn add_unless(
    alloc: Global,
    places: &mut Vec<(Word, u64)>,
    kept: bool,
    name: &str,
    number: u64,
) -> Result<(), AllocError>
    ensures { OnOk result (places.new.items ≡ places.old.items ++ unless kept (name.now, number)) }
{
    if kept {
        return Ok(());
    }
    places.push((Word::new(alloc, name)?, number))?;
    Ok(())
}

fn is_before(a: &(Word, u64), b: &(Word, u64)) -> bool
    ensures { result ≡ is_before a.now b.now }
{
    a.0.as_str().cmp(b.0.as_str()).then(a.1.cmp(&b.1)).is_lt()
}

/// The lesser of two places, or the one that is there.
fn lesser<'a>(best: Option<&'a (Word, u64)>, place: &'a (Word, u64)) -> Option<&'a (Word, u64)>
    ensures { option_copied result ≡ lesser_of (option_copied best.entry) (Some place.now) }
{
    match best {
        Some(first) => {
            if is_before(place, first) {
                Some(place)
            } else {
                Some(first)
            }
        }
        None => Some(place),
    }
}

/// The least name, and there the least number.
pub(crate) fn least_of(places: &[(Word, u64)]) -> Option<&(Word, u64)>
    ensures { option_copied result ≡ least places.now }
{
    let mut best = None;
    for place in places {
        best = lesser(best, place);
    }
    best
}
