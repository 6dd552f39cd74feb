//! Attributes of nodes that are the same.
ghost use Rattle.std.specs.Prelude.{◌≡◌, ◌&&◌};
ghost use Rattle.std.specs.Option.{option_eq};
ghost use Rattle.std.specs.Str.{bytes_eq};
ghost use Rattle.problem.specs.Problems.{same_compiler};
ghost use Rattle.graph_rules.specs.Kept.{same_variants, same_attributes};
ghost use Rattle.reuse_db.specs.Installed.{installed_node};

use graph_core::{Compiler, Node};
use plain_data::{List, Same, Word};
use problem::same_compiler;
use reuse_db::Record;
use variant_values::ValueSet;

fn same_variants(a: &List<(Word, ValueSet)>, b: &List<(Word, ValueSet)>) -> bool
    ensures { result ≡ same_variants a.now b.now }
{
    a.same(b)
}

fn same_compilers(a: &Option<Compiler>, b: &Option<Compiler>) -> bool
    ensures { result ≡ option_eq same_compiler a.now b.now }
{
    match (a, b) {
        (Some(a), Some(b)) => same_compiler(a, b),
        (None, None) => true,
        _ => false,
    }
}

fn same_prefixes(a: &Option<Word>, b: &Option<Word>) -> bool
    ensures { result ≡ option_eq bytes_eq a.now b.now }
{
    match (a, b) {
        (Some(a), Some(b)) => a.as_str() == b.as_str(),
        (None, None) => true,
        _ => false,
    }
}

/// Whether two nodes are the same in all but origin.
#[tactic(auto, unfolding(graph_rules::specs::Kept::same_attributes))]
pub(crate) fn same_attributes(a: &Node, b: &Node) -> bool
    ensures { result ≡ same_attributes a.now b.now }
{
    a.name.as_str() == b.name.as_str()
        && a.version.text() == b.version.text()
        && same_variants(&a.variants, &b.variants)
        && same_compilers(&a.compiler, &b.compiler)
        && a.os.as_str() == b.os.as_str()
        && a.target.as_str() == b.target.as_str()
        && same_prefixes(&a.prefix, &b.prefix)
}

/// Whether a node is that of a record in all but origin.
#[tactic(auto, unfolding(graph_rules::specs::Kept::same_attributes, reuse_db::specs::Installed::installed_node))]
pub(crate) fn same_installed(node: &Node, entry: &Record) -> bool
    ensures { result ≡ same_attributes node.now (installed_node entry.now) }
{
    node.name.as_str() == entry.name.as_str()
        && node.version.text() == entry.version.text()
        && same_variants(&node.variants, &entry.variants)
        && same_compilers(&node.compiler, &entry.compiler)
        && node.os.as_str() == entry.os.as_str()
        && node.target.as_str() == entry.target.as_str()
        && same_prefixes(&node.prefix, &entry.external)
}
