//! The conditions that are given for a name.
ghost use Rattle.std.specs.Prelude.{◌≡◌, find, map};
ghost use Rattle.std.specs.Option.{option_copied};
ghost use Rattle.std.specs.Str.{bytes_eq};
ghost use Rattle.clause_formulas.specs.Drafts.{statement_of};
ghost use Rattle.term_builder.specs.Held.{defined_in, held_in};

use clause_formulas::Defined;
use plain_data::{List, Word};

fn found<'a>(held: &'a [(Word, List<Defined>)], name: &str) -> Option<&'a (Word, List<Defined>)>
    ensures { option_copied result ≡ find (λ h. bytes_eq name.now h.0) held.now }
{
    held.iter().find(|h| name == h.0.as_str())
}

fn defined_in(found: Option<&(Word, List<Defined>)>) -> &[Defined]
    ensures { result.now ≡ defined_in (option_copied found.entry) }
{
    match found {
        Some(found) => found.1.as_slice(),
        None => &[],
    }
}

/// The values of the conditions that are given for a name; none where the name is not there.
pub(crate) fn conditions_at<'a>(held: &'a [(Word, List<Defined>)], name: &str) -> &'a [Defined]
    ensures { map statement_of result.now ≡ held_in held.now name.now }
{
    defined_in(found(held, name))
}
