//! Rows of graphs.
//!
//! The items are put one after another: `NAME` or `NAME@VERSION` is a node with one variant and a
//! compiler, at 1.0 without a version, `PARENT>CHILD` an edge for linking, which names virtuals in
//! `PARENT>CHILD:VIRTUAL,..`, `VIRTUAL=PACKAGE` a provider.
//! Those that were not put are answered, and how many nodes there are.
//! Questions: `nodes`, `edges`, `providers`, `node NAME`, `from NAME`, `provider VIRTUAL`,
//! `reaches FROM TO`, `leads FROM TO` (asked of all paths at once), `copy NAME` (a node and its
//! copy), `copy PARENT CHILD` (an edge and its copy).

use crate::nodes::{add_names, compiler_of, edge_of, plain_node};
use crate::show::{push_bool, push_edge, push_node, push_word};
use graph_core::{Edge, Graph, Kinds, Node, Reach, reaches};
use plain_data::{Duplicate, Same, Word};
use std::alloc::{AllocError, Global};
use variant_values::ValueSet;
use version_order::{Version, VersionFault};

const LINKED: Kinds = Kinds {
    build: false,
    link: true,
    run: false,
};

/// What the graph of these items answers.
pub(crate) fn answer(
    alloc: Global,
    text: &mut String,
    items: &[&str],
    questions: &[&str],
) -> Result<(), AllocError> {
    let mut graph = Graph::new(alloc);
    let answered = answer_over(alloc, text, &mut graph, items, questions);
    drop(graph);
    answered
}

fn answer_over(
    alloc: Global,
    text: &mut String,
    graph: &mut Graph,
    items: &[&str],
    questions: &[&str],
) -> Result<(), AllocError> {
    for item in items {
        if !put(alloc, graph, item)? {
            text.push_str(item)?;
            text.push_str(" ")?;
        }
    }
    let count = format!(in alloc; "{}", graph.nodes().len())?;
    text.push_str(count.as_str())?;
    ask_all(alloc, text, graph, questions)
}

fn ask_all(
    alloc: Global,
    text: &mut String,
    graph: &Graph,
    questions: &[&str],
) -> Result<(), AllocError> {
    let reach = Reach::new(alloc, graph)?;
    let asked = ask_each(alloc, text, graph, &reach, questions);
    drop(reach);
    asked
}

fn ask_each(
    alloc: Global,
    text: &mut String,
    graph: &Graph,
    reach: &Reach,
    questions: &[&str],
) -> Result<(), AllocError> {
    for question in questions {
        let words: Vec<&str> = question.split_whitespace().collect(alloc)?;
        text.push_str(" |")?;
        ask(alloc, text, graph, reach, words.as_slice())?;
    }
    Ok(())
}

fn node_of(alloc: Global, word: &str) -> Result<Node, VersionFault> {
    let (name, version) = word.split_once('@').unwrap_or((word, "1.0"));
    let mut node = plain_node(alloc, name, Version::read(alloc, version)?)?;
    match choose(alloc, &mut node) {
        Ok(()) => Ok(node),
        Err(fault) => {
            drop(node);
            Err(fault)
        }
    }
}

fn choose(alloc: Global, node: &mut Node) -> Result<(), VersionFault> {
    let mut values = ValueSet::new(alloc);
    values.insert(Word::new(alloc, "true")?)?;
    node.variants.push((Word::new(alloc, "shared")?, values))?;
    node.compiler = Some(compiler_of(alloc)?);
    Ok(())
}

/// An edge for linking; behind the child may stand what it names.
fn named_edge(alloc: Global, parent: &str, words: &str) -> Result<Edge, AllocError> {
    let (child, names) = words.split_once(':').unwrap_or((words, ""));
    let mut edge = edge_of(alloc, parent, child, LINKED)?;
    match add_names(alloc, &mut edge.virtuals, names) {
        Ok(()) => Ok(edge),
        Err(fault) => {
            drop(edge);
            Err(fault)
        }
    }
}

/// Puts one item; whether it was put.
pub(crate) fn put(alloc: Global, graph: &mut Graph, item: &str) -> Result<bool, AllocError> {
    if let Some((parent, child)) = item.split_once('>') {
        return graph.add_edge(named_edge(alloc, parent, child)?);
    }
    if let Some((name, provider)) = item.split_once('=') {
        return graph.set_provider(Word::new(alloc, name)?, Word::new(alloc, provider)?);
    }
    match node_of(alloc, item) {
        Ok(node) => graph.add_node(node),
        Err(VersionFault::OutOfMemory) => Err(AllocError),
        Err(_) => Ok(false),
    }
}

fn ask(
    alloc: Global,
    text: &mut String,
    graph: &Graph,
    reach: &Reach,
    words: &[&str],
) -> Result<(), AllocError> {
    match words {
        [what] => list(text, graph, what),
        [what, name] if *what == "copy" => copy(alloc, text, graph, name),
        [what, name] => look_up(text, graph, what, name),
        [what, from, to] if *what == "reaches" => {
            push_bool(text, reaches(alloc, graph, from, to)?)
        }
        [what, from, to] if *what == "copy" => copy_edge(alloc, text, graph, from, to),
        [what, from, to] if *what == "leads" => push_bool(text, reach.leads(from, to)),
        _ => push_word(text, "no"),
    }
}

fn list(text: &mut String, graph: &Graph, what: &str) -> Result<(), AllocError> {
    match what {
        "nodes" => {
            for node in graph.nodes() {
                push_node(text, node)?;
            }
        }
        "edges" => {
            for edge in graph.edges() {
                push_edge(text, edge)?;
            }
        }
        "providers" => {
            for (name, provider) in graph.providers() {
                push_word(text, name.as_str())?;
                text.push_str("=")?;
                text.push_str(provider.as_str())?;
            }
        }
        _ => push_word(text, "no")?,
    }
    Ok(())
}

fn look_up(text: &mut String, graph: &Graph, what: &str, name: &str) -> Result<(), AllocError> {
    match what {
        "node" => match graph.node(name) {
            Some(node) => push_node(text, node),
            None => push_word(text, "none"),
        },
        "provider" => push_word(text, graph.provider_of(name).unwrap_or("none")),
        "from" => {
            for edge in graph.edges_from(name) {
                push_edge(text, edge)?;
            }
            Ok(())
        }
        _ => push_word(text, "no"),
    }
}

/// A node's copy, and whether it is the same as the node.
fn copy(alloc: Global, text: &mut String, graph: &Graph, name: &str) -> Result<(), AllocError> {
    match graph.node(name) {
        Some(node) => {
            let copy = node.duplicate(alloc)?;
            let shown = push_copy(text, node, &copy);
            drop(copy);
            shown
        }
        None => push_word(text, "none"),
    }
}

/// An edge's copy, and whether it is the same as the edge.
fn copy_edge(
    alloc: Global,
    text: &mut String,
    graph: &Graph,
    parent: &str,
    child: &str,
) -> Result<(), AllocError> {
    match graph.edge(parent, child) {
        Some(edge) => {
            let copy = edge.duplicate(alloc)?;
            let shown = push_copied(text, edge, &copy);
            drop(copy);
            shown
        }
        None => push_word(text, "none"),
    }
}

fn push_copied(text: &mut String, edge: &Edge, copy: &Edge) -> Result<(), AllocError> {
    push_edge(text, copy)?;
    push_bool(text, edge.same(copy))
}

fn push_copy(text: &mut String, node: &Node, copy: &Node) -> Result<(), AllocError> {
    push_node(text, copy)?;
    push_bool(text, node.same(copy))
}
