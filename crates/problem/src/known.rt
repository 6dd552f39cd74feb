//! Names that are known.
ghost use Rattle.std.specs.Prelude.{◌≡◌};
ghost use Rattle.std.specs.List.{list_any};
ghost use Rattle.std.specs.Str.{bytes_eq};
ghost use Rattle.problem.specs.Closure.{is_known, is_filled};
ghost use Rattle.problem.specs.Problems.{package_entry_of, externals_in};

use crate::Problem;
use crate::lookup::entry_of;
use reuse_db::Record;
use site_settings::ExternalEntry;

fn is_filled(entries: &[ExternalEntry]) -> bool
    ensures { result ≡ is_filled entries.now }
{
    match entries {
        [] => false,
        [_, ..] => true,
    }
}

fn has_external(problem: &Problem, name: &str) -> bool
    ensures { result ≡ is_filled (externals_in (package_entry_of problem.now name.now)) }
{
    match entry_of(problem, name) {
        Some(entry) => is_filled(entry.externals.as_slice()),
        None => false,
    }
}

fn has_record(records: &[Record], name: &str) -> bool
    ensures { result ≡ list_any (λ entry. bytes_eq entry.name name.now) records.now }
{
    records.iter().any(|entry| entry.name.as_str() == name)
}

/// Whether a recipe, an external or a record has the name.
#[tactic(auto, unfolding(crate::specs::Closure::is_known))]
pub fn is_known(problem: &Problem, name: &str) -> bool
    ensures { result ≡ is_known problem.now name.now }
{
    problem.world().recipe(name).is_some()
        || has_external(problem, name)
        || has_record(problem.database().records(), name)
}
