//! Nodes, edges and truth values as text.

use graph_core::{Edge, Kinds, Node};
use std::alloc::AllocError;

/// A word behind a space.
pub(crate) fn push_word(text: &mut String, word: &str) -> Result<(), AllocError> {
    text.push_str(" ")?;
    text.push_str(word)
}

/// A truth value behind a space.
pub(crate) fn push_bool(text: &mut String, value: bool) -> Result<(), AllocError> {
    push_word(text, if value { "true" } else { "false" })
}

/// A node as its name and version.
pub(crate) fn push_node(text: &mut String, node: &Node) -> Result<(), AllocError> {
    push_word(text, node.name.as_str())?;
    text.push_str("@")?;
    text.push_str(node.version.text())
}

/// An edge as its ends, its kinds, and the virtuals that it names.
pub(crate) fn push_edge(text: &mut String, edge: &Edge) -> Result<(), AllocError> {
    push_word(text, edge.parent.as_str())?;
    text.push_str(">")?;
    text.push_str(edge.child.as_str())?;
    text.push_str(letters_of(edge.kinds))?;
    let mut sign = "=";
    for name in edge.virtuals.values() {
        text.push_str(sign)?;
        text.push_str(name.as_str())?;
        sign = ",";
    }
    Ok(())
}

fn letters_of(kinds: Kinds) -> &'static str {
    match (kinds.build, kinds.link, kinds.run) {
        (false, true, false) => ":l",
        (true, true, true) => ":blr",
        _ => ":other",
    }
}
