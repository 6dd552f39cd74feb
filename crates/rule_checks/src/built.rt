//! The rules of a node to build, apart from variants, edges and directives.
ghost use Rattle.std.specs.Prelude.{◌≡◌, ◌&&◌};
ghost use Rattle.std.specs.Str.{bytes_eq};
ghost use Rattle.std.specs.List.{list_any};
ghost use Rattle.condition_rules.specs.Words.{is_one_text, if_written};
ghost use Rattle.problem.specs.Problems.{same_compiler};
ghost use Rattle.graph_rules.specs.Built.{keeps_buildable, keeps_version, keeps_compiler};
ghost use Rattle.graph_rules.specs.Built.{keeps_machine, supports};

use crate::checks::Checks;
use graph_core::{Compiler, Node};
use plain_data::{List, Word};
use problem::{is_buildable, recipe_at, same_compiler, versions_at};
use recipe_data::VersionRow;
use site_settings::CompilerEntry;
use target_table::TargetEntry;

fn declares(rows: &[VersionRow], text: &str) -> bool
    ensures { result ≡ list_any (λ row. bytes_eq row.version text.now) rows.now }
{
    rows.iter().any(|row| row.version.text() == text)
}

pub(crate) fn among(texts: &[Word], text: &str) -> bool
    ensures { result ≡ is_one_text texts.now text.now }
{
    texts.iter().any(|t| text == t.as_str())
}

fn lists(texts: &Option<List<Word>>, text: &str) -> bool
    ensures { result ≡ if_written texts.now (λ names. is_one_text names text.now) }
{
    match texts {
        Some(texts) => among(texts.as_slice(), text),
        None => true,
    }
}

fn supports(entry: &CompilerEntry, node: &Node) -> bool
    ensures { result ≡ supports entry.now node.now }
{
    lists(&entry.os, node.os.as_str()) && lists(&entry.targets, node.target.as_str())
}

fn has_compiler(entries: &[CompilerEntry], compiler: &Compiler, node: &Node) -> bool
    ensures { result ≡ list_any (λ entry. same_compiler entry.compiler compiler.now && supports
        entry node.now) entries.now }
{
    entries.iter().any(|entry| same_compiler(&entry.compiler, compiler) && supports(entry, node))
}

fn has_target(entries: &[TargetEntry], target: &str) -> bool
    ensures { result ≡ list_any (λ entry. bytes_eq entry.name target.now) entries.now }
{
    entries.iter().any(|entry| entry.name.as_str() == target)
}

impl<'a> Checks<'a> {
    /// Its package has a recipe, and is buildable by the settings.
    #[tactic(auto, unfolding(graph_rules::specs::Built::keeps_buildable))]
    pub fn keeps_buildable(&self, node: &Node) -> bool
        ensures { result ≡ keeps_buildable self.now.problem node.now }
    {
        recipe_at(self.problem(), node.name.as_str()).is_some()
            && is_buildable(self.problem(), node.name.as_str())
    }

    /// Its version is declared.
    #[tactic(auto, unfolding(graph_rules::specs::Built::keeps_version))]
    pub fn keeps_version(&self, node: &Node) -> bool
        ensures { result ≡ keeps_version self.now.problem node.now }
    {
        declares(
            versions_at(self.problem(), node.name.as_str()),
            node.version.text(),
        )
    }

    /// It has a compiler of the settings, which supports its OS and its target.
    #[tactic(auto, unfolding(graph_rules::specs::Built::keeps_compiler))]
    pub fn keeps_compiler(&self, node: &Node) -> bool
        ensures { result ≡ keeps_compiler self.now.problem node.now }
    {
        let settings = self.problem().settings();
        match &node.compiler {
            Some(compiler) => has_compiler(settings.compilers.as_slice(), compiler, node),
            None => false,
        }
    }

    /// Its OS and its target are in the settings.
    #[tactic(auto, unfolding(graph_rules::specs::Built::keeps_machine))]
    pub fn keeps_machine(&self, node: &Node) -> bool
        ensures { result ≡ keeps_machine self.now.problem node.now }
    {
        let settings = self.problem().settings();
        among(settings.os.as_slice(), node.os.as_str())
            && has_target(settings.targets.entries(), node.target.as_str())
    }
}
