//! Places in the settings' lists, or their lengths.
ghost use Rattle.std.specs.Prelude.{◌≡◌, find};
ghost use Rattle.std.specs.List.{position_or_len};
ghost use Rattle.std.specs.Option.{option_copied};
ghost use Rattle.std.specs.Str.{bytes_eq};
ghost use Rattle.problem.specs.Problems.{same_compiler};
ghost use Rattle.graph_rules.specs.Weights.{place_in, os_weight, target_weight, compiler_weight};
ghost use Rattle.graph_rules.specs.Weights.{packages_in, provider_weight};

use graph_core::Compiler;
use plain_data::{List, Word};
use problem::{Problem, same_compiler};
use site_settings::CompilerEntry;
use target_table::TargetEntry;

fn place_in(texts: &[Word], text: &str) -> usize
    ensures { result ≡ place_in texts.now text.now }
{
    texts
        .iter()
        .take_while(|other| !(text == other.as_str()))
        .count()
}

/// The place of an OS in the settings' list, or the list's length.
pub fn os_weight(problem: &Problem, name: &str) -> usize
    ensures { result ≡ os_weight problem.now name.now }
{
    place_in(problem.settings().os.as_slice(), name)
}

fn target_place(entries: &[TargetEntry], name: &str) -> usize
    ensures { result ≡ position_or_len (λ entry. bytes_eq name.now entry.name) entries.now }
{
    entries
        .iter()
        .take_while(|entry| !(name == entry.name.as_str()))
        .count()
}

/// The place of a target in the settings' table, or the table's length.
pub fn target_weight(problem: &Problem, name: &str) -> usize
    ensures { result ≡ target_weight problem.now name.now }
{
    target_place(problem.settings().targets.entries(), name)
}

fn compiler_place(entries: &[CompilerEntry], compiler: &Compiler) -> usize
    ensures { result ≡ position_or_len
        (λ entry. same_compiler entry.compiler compiler.now) entries.now }
{
    entries
        .iter()
        .take_while(|entry| !same_compiler(&entry.compiler, compiler))
        .count()
}

/// The place of a compiler in the settings' list, or the list's length. An absent compiler weighs
/// nothing.
pub fn compiler_weight(problem: &Problem, compiler: &Option<Compiler>) -> usize
    ensures { result ≡ compiler_weight problem.now compiler.now }
{
    match compiler {
        Some(compiler) => compiler_place(problem.settings().compilers.as_slice(), compiler),
        None => 0,
    }
}

fn listed_for<'a>(providers: &'a [(Word, List<Word>)], name: &str) -> Option<&'a (Word, List<Word>)>
    ensures { option_copied result ≡ find (λ q. bytes_eq q.0 name.now) providers.now }
{
    providers.iter().find(|q| q.0.as_str() == name)
}

fn packages_in(listed: Option<&(Word, List<Word>)>) -> &[Word]
    ensures { result.now ≡ packages_in (option_copied listed.entry) }
{
    match listed {
        Some(listed) => listed.1.as_slice(),
        None => &[],
    }
}

/// The place of a package among those that the settings list for a virtual, or the list's length.
pub fn provider_weight(problem: &Problem, name: &str, provider: &str) -> usize
    ensures { result ≡ provider_weight problem.now (name.now, provider.now) }
{
    let listed = listed_for(problem.settings().providers.as_slice(), name);
    place_in(packages_in(listed), provider)
}
