//! Platforms that are not the machine's.
ghost use Rattle.std.specs.Prelude.{◌≡◌, ◌∷◌};
ghost use Rattle.std.specs.Option.{option_copied};
ghost use Rattle.problem.specs.Roots.{other_than, wrong_platform};

use condition_rules::{Part, Spec};
use plain_data::Word;

/// A platform that is written and is not the machine's.
fn other_than<'a>(platform: &str, written: &'a Option<Word>) -> Option<&'a Word>
    ensures { option_copied result ≡ other_than platform.now written.now }
{
    match written {
        Some(word) => {
            if word.as_str() == platform {
                None
            } else {
                Some(word)
            }
        }
        None => None,
    }
}

/// The first such platform of some parts.
fn first_wrong<'a>(platform: &str, parts: &'a [Part]) -> Option<&'a Word>
    ensures { option_copied result ≡ wrong_platform platform.now parts.now }
{
    for part in parts {
        if let Some(word) = other_than(platform, &part.platform) {
            return Some(word);
        }
    }
    None
}

/// The first platform of a spec's parts that is not this one.
pub fn wrong_platform<'a>(platform: &str, spec: &'a Spec) -> Option<&'a Word>
    ensures { option_copied result ≡ wrong_platform platform.now (spec.now.top ∷ spec.now.below) }
{
    match other_than(platform, &spec.top.platform) {
        Some(word) => Some(word),
        None => first_wrong(platform, spec.below.as_slice()),
    }
}
