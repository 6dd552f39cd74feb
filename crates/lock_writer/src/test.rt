//! Whether a lock file can be written.
ghost use Rattle.std.specs.Prelude.{◌≡◌, ◌↔◌, IfOk, IsTrue};
ghost use Rattle.std.specs.List.{list_all};
ghost use Rattle.spec_grammar.specs.Canonical.{word_text};
ghost use Rattle.lock_writer.specs.Tests.{can_be_written, has_text, is_of_node, is_off_cycles};
ghost use Rattle.lock_writer.specs.Tests.{is_recorded};
ghost use Rattle.lock_writer.specs.Texts.{CanBeWritten};

use graph_core::{Graph, Origin, Reach};
use reuse_db::Database;
use spec_grammar::{Spec, write_spec};
use std::alloc::{AllocError, Global};

/// Whether `write_lock` may be called: the graph has no cycle, each installed node is in the
/// database, and each root is a node by its name.
pub fn can_be_written(
    alloc: Global,
    graph: &Graph,
    database: &Database,
    roots: &[Spec],
) -> Result<bool, AllocError>
    ensures { IfOk result (λ is. IsTrue is ↔ CanBeWritten graph.now database.now roots.now) }
{
    // `nodes` says that the graph is one.
    let _ = graph.nodes();
    test(alloc, graph, database, roots)
}

/// The four conditions, the cheap ones first.
fn test(
    alloc: Global,
    graph: &Graph,
    database: &Database,
    roots: &[Spec],
) -> Result<bool, AllocError>
    ensures { IfOk result (λ is. is ≡ can_be_written graph.now database.now roots.now) }
{
    Ok(
        are_recorded(graph, database)
            && are_nodes(graph, roots)
            && are_texts(alloc, roots)?
            && has_no_cycle(alloc, graph)?,
    )
}

fn has_no_cycle(alloc: Global, graph: &Graph) -> Result<bool, AllocError>
    ensures { IfOk result (λ is. is ≡ list_all (is_off_cycles graph.now) graph.now.nodes) }
{
    let reach = Reach::new(alloc, graph)?;
    Ok(graph.nodes().iter().all(|node| !reach.leads(node.name.as_str(), node.name.as_str())))
}

fn are_recorded(graph: &Graph, database: &Database) -> bool
    ensures { result ≡ list_all (λ node. is_recorded database.now node.origin) graph.now.nodes }
{
    graph
        .nodes()
        .iter()
        .all(|node| is_recorded(database, &node.origin))
}

fn is_recorded(database: &Database, origin: &Origin) -> bool
    ensures { result ≡ is_recorded database.now origin.now }
{
    match origin {
        Origin::Installed(hash) => database.find(hash).is_some(),
        _ => true,
    }
}

fn are_nodes(graph: &Graph, roots: &[Spec]) -> bool
    ensures { result ≡ list_all (is_of_node graph.now) roots.now }
{
    roots.iter().all(|root| is_of_node(graph, root))
}

fn is_of_node(graph: &Graph, root: &Spec) -> bool
    ensures { result ≡ is_of_node graph.now root.now }
{
    graph.node(name_of(root)).is_some()
}

/// Whether the text of each root is UTF-8.
fn are_texts(alloc: Global, roots: &[Spec]) -> Result<bool, AllocError>
    ensures { IfOk result (λ is. is ≡ list_all has_text roots.now) }
{
    for root in roots {
        if !has_text(alloc, root)? {
            return Ok(false);
        }
    }
    Ok(true)
}

fn has_text(alloc: Global, root: &Spec) -> Result<bool, AllocError>
    ensures { IfOk result (λ is. is ≡ has_text root.now) }
{
    let text = write_spec(alloc, root)?;
    Ok(std::str::from_utf8(text.as_slice()).is_ok())
}

/// The name of a spec, and the empty text where it has none.
pub(crate) fn name_of(spec: &Spec) -> &str
    ensures { result.now ≡ word_text spec.now.top.name }
{
    match &spec.top.name {
        Some(name) => name.as_str(),
        None => "",
    }
}
