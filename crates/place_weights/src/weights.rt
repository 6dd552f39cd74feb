//! Choices with their places in the settings' lists.
ghost use Rattle.std.specs.Prelude.{◌≡◌, map, IfOk};
ghost use Rattle.std.specs.List.{position_or_len};
ghost use Rattle.std.specs.Str.{bytes_eq};
ghost use Rattle.graph_rules.specs.Weights.{place_in, os_weight, target_weight};

use plain_data::Word;
use problem::Problem;
use std::alloc::{AllocError, Global};
use target_table::TargetEntry;
use text_places::{TextPlaces, with_places};

fn os_texts<'a>(alloc: Global, names: &'a [Word]) -> Result<Vec<&'a str>, AllocError>
    ensures { IfOk result (λ texts. map (λ text. text.now) texts.items ≡ names.now) }
{
    let mut texts = Vec::new(alloc);
    for name in names {
        texts.push(name.as_str())?;
    }
    Ok(texts)
}

fn target_texts<'a>(alloc: Global, entries: &'a [TargetEntry]) -> Result<Vec<&'a str>, AllocError>
    ensures { IfOk result (λ texts. map (λ text. text.now) texts.items
        ≡ map (λ entry. entry.name) entries.now) }
{
    let mut texts = Vec::new(alloc);
    for entry in entries {
        texts.push(entry.name.as_str())?;
    }
    Ok(texts)
}

// Each choice with its place.
fn weigh_each<L: Copy>(
    alloc: Global,
    places: &TextPlaces,
    choices: &[(Word, L)],
) -> Result<Vec<(u64, L)>, AllocError>
    ensures { IfOk result (λ weights. weights.items
        ≡ map (λ c. (place_in places.now c.0, c.1)) choices.now) }
{
    let mut weights = Vec::new(alloc);
    for choice in choices {
        let weight = places.of(choice.0.as_str());
        weights.push((weight as u64, choice.1))?;
    }
    Ok(weights)
}

fn weigh<L: Copy>(
    alloc: Global,
    texts: &[&str],
    choices: &[(Word, L)],
) -> Result<Vec<(u64, L)>, AllocError>
    ensures { IfOk result (λ weights. weights.items
        ≡ map (λ c. (place_in (map (λ text. text.now) texts.now) c.0, c.1)) choices.now) }
{
    let placed = with_places(alloc, texts)?;
    let places = TextPlaces::new(alloc, placed.as_slice())?;
    weigh_each(alloc, &places, choices)
}

/// The weight of each OS, with what stands beside it.
///
/// Takes n log n comparisons for n choices and entries of the settings.
pub fn os_weights<L: Copy>(
    alloc: Global,
    problem: &Problem,
    choices: &[(Word, L)],
) -> Result<Vec<(u64, L)>, AllocError>
    ensures { IfOk result (λ weights. weights.items
        ≡ map (λ c. (os_weight problem.now c.0, c.1)) choices.now) }
{
    let texts = os_texts(alloc, problem.settings().os.as_slice())?;
    weigh(alloc, texts.as_slice(), choices)
}

/// The weight of each target, with what stands beside it.
///
/// Takes n log n comparisons for n choices and entries of the settings.
pub fn target_weights<L: Copy>(
    alloc: Global,
    problem: &Problem,
    choices: &[(Word, L)],
) -> Result<Vec<(u64, L)>, AllocError>
    ensures { IfOk result (λ weights. weights.items
        ≡ map (λ c. (target_weight problem.now c.0, c.1)) choices.now) }
{
    let texts = target_texts(alloc, problem.settings().targets.entries())?;
    weigh(alloc, texts.as_slice(), choices)
}
