//! A problem in which names are found by search.
ghost use Rattle.std.specs.Prelude.{◌≡◌, map, filter, IfOk};
ghost use Rattle.std.specs.List.{list_any};
ghost use Rattle.std.specs.Option.{option_copied};
ghost use Rattle.std.specs.Str.{bytes_eq};
ghost use Rattle.problem.specs.Closure.{is_known, is_filled};
ghost use Rattle.problem.specs.Problems.{package_entry_of, externals_in};
ghost use Rattle.keyed_lists.specs.Lent.{lent, IsIndexOf};

use keyed_lists::TextIndex;
use problem::{Problem, recipe_at};
use reuse_db::Record;
use site_settings::PackageEntry;
use std::alloc::{AllocError, Global};
use std::marker::Model;

/// A problem whose packages of the settings and whose records are found by search of their name,
/// seen as the problem.
#[derive(Drop)]
pub struct IndexedProblem<'a> {
    problem: &'a Problem,
    packages: TextIndex<'a, PackageEntry>,
    records: TextIndex<'a, Record>,
}

impl<'a> Model for IndexedProblem<'a> {
    ghost use Rattle.problem.specs.Problems.{Problem};
    ghost use Rattle.keyed_lists.specs.Lent.{IsIndexOf};

    ghost Value = { Problem };

    ghost view = { λ indexed. indexed.problem.now };

    ghost invariant = { λ indexed. record { packages : IsIndexOf (λ entry. entry.name) indexed.problem.now.settings.packages indexed.packages; records : IsIndexOf (λ entry. entry.name) indexed.problem.now.database indexed.records } };
}

impl<'a> IndexedProblem<'a> {
    /// The same problem; takes n log n comparisons of names for n packages of the settings and
    /// records.
    pub fn new(alloc: Global, problem: &'a Problem) -> Result<IndexedProblem<'a>, AllocError>
        ensures { IfOk result (λ indexed. indexed ≡ problem.now) }
    {
        let packages = packages_by_name(alloc, problem.settings().packages.as_slice())?;
        let records = records_by_name(alloc, problem.database().records())?;
        Ok(IndexedProblem {
            problem,
            packages,
            records,
        })
    }

    /// The problem.
    pub fn problem(&self) -> &'a Problem
        ensures { result.now ≡ self.now }
    {
        self.problem
    }

    /// The records of a package, each behind its name, in the order of the database.
    pub fn records_of(&self, name: &str) -> &[(&'a str, &'a Record)]
        ensures { map (λ e. e.1) (lent result.now)
            ≡ filter (λ entry. bytes_eq entry.name name.now) self.now.database }
    {
        self.records.of(name)
    }

    // What the settings say of a package.
    #[tactic(auto, unfolding(problem::specs::Problems::package_entry_of))]
    fn entry_of(&self, name: &str) -> Option<&'a PackageEntry>
        ensures { option_copied result ≡ package_entry_of self.now name.now }
    {
        match self.packages.of(name) {
            [] => None,
            [first, ..] => Some(first.1),
        }
    }
}

fn packages_by_name<'a>(
    alloc: Global,
    packages: &'a [PackageEntry],
) -> Result<TextIndex<'a, PackageEntry>, AllocError>
    ensures { IfOk result (IsIndexOf (λ entry. entry.name) packages.now) }
{
    let mut named = Vec::new(alloc);
    for entry in packages {
        named.push((entry.name.as_str(), entry))?;
    }
    TextIndex::new(named)
}

fn records_by_name<'a>(
    alloc: Global,
    records: &'a [Record],
) -> Result<TextIndex<'a, Record>, AllocError>
    ensures { IfOk result (IsIndexOf (λ entry. entry.name) records.now) }
{
    let mut named = Vec::new(alloc);
    for entry in records {
        named.push((entry.name.as_str(), entry))?;
    }
    TextIndex::new(named)
}

fn has_external(entry: Option<&PackageEntry>) -> bool
    ensures { result ≡ is_filled (externals_in (option_copied entry.entry)) }
{
    match entry {
        Some(entry) => matches!(entry.externals.as_slice(), [_, ..]),
        None => false,
    }
}

fn has_record(problem: &IndexedProblem, name: &str) -> bool
    ensures { result ≡ list_any (λ entry. bytes_eq entry.name name.now) problem.now.database }
{
    !problem.records_of(name).is_empty()
}

/// Whether a recipe, an external or a record has the name.
#[tactic(auto, unfolding(problem::specs::Closure::is_known))]
pub fn is_known(problem: &IndexedProblem, name: &str) -> bool
    ensures { result ≡ is_known problem.now name.now }
{
    recipe_at(problem.problem(), name).is_some()
        || has_external(problem.entry_of(name))
        || has_record(problem, name)
}
