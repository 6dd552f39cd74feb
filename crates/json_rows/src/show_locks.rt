//! What lock files and databases are read as, as one line of text.

use graph_core::{Edge, Graph, Kinds, Node, Origin};
use lockfile::{Lock, LockFault, read_lock};
use plain_data::Word;
use reuse_db::{Database, DbFault};
use std::alloc::{AllocError, Global};

type Shown = Result<(), AllocError>;

/// What a lock file is read as: that there is a lock, or its fault.
pub(crate) fn read_text(alloc: Global, bytes: &[u8]) -> Result<String, AllocError> {
    match read_lock(alloc, bytes) {
        Ok(lock) => {
            let count = lock.hashes.len();
            format!(in alloc; "{count} nodes")
        }
        Err(fault) => fault_text(alloc, &fault),
    }
}

/// The fault of a lock file.
pub(crate) fn fault_text(alloc: Global, fault: &LockFault) -> Result<String, AllocError> {
    match fault {
        LockFault::NotJson => String::from_str(alloc, "NotJson"),
        LockFault::WrongKind(at) => format!(in alloc; "WrongKind {at}"),
        LockFault::TwiceNamed(name) => format!(in alloc; "TwiceNamed {name}"),
        LockFault::HashDiffers { written, computed } => {
            pair_text(alloc, "HashDiffers", written.as_str(), computed.as_str())
        }
        LockFault::Dangling { parent, child } => {
            pair_text(alloc, "Dangling", parent.as_str(), child.as_str())
        }
        LockFault::OutOfMemory => String::from_str(alloc, "OutOfMemory"),
    }
}

/// The fault of a database.
pub(crate) fn database_fault(alloc: Global, fault: &DbFault) -> Result<String, AllocError> {
    match fault {
        DbFault::NotJson => String::from_str(alloc, "NotJson"),
        DbFault::WrongKind(at) => format!(in alloc; "WrongKind {at}"),
        DbFault::HashDiffers { written, computed } => {
            pair_text(alloc, "HashDiffers", written.as_str(), computed.as_str())
        }
        DbFault::TwiceHash(hash) => pair_text(alloc, "TwiceHash", hash.as_str(), ""),
        DbFault::Dangling { parent, child } => {
            pair_text(alloc, "Dangling", parent.as_str(), child.as_str())
        }
        DbFault::OutOfMemory => String::from_str(alloc, "OutOfMemory"),
    }
}

fn pair_text(alloc: Global, what: &str, first: &str, second: &str) -> Result<String, AllocError> {
    if second.is_empty() {
        return format!(in alloc; "{what} {first}");
    }
    format!(in alloc; "{what} {first} {second}")
}

/// Each record of a database by its hash and its name, which is looked up by the hash.
pub(crate) fn database_text(alloc: Global, database: &Database) -> Result<String, AllocError> {
    let mut out = String::from_str(alloc, "database")?;
    for entry in database.records() {
        push(&mut out, " ", entry.hash.as_str())?;
        match database.find(&entry.hash) {
            Some(found) => push(&mut out, "=", found.name.as_str())?,
            None => out.push_str(" lost")?,
        }
    }
    Ok(out)
}

/// A lock: its version, its nodes with their edges, its providers, roots and hashes.
pub(crate) fn lock_text(alloc: Global, lock: &Lock) -> Result<String, AllocError> {
    let version = lock.version;
    let mut out = format!(in alloc; "lock {version}")?;
    for node in lock.graph.nodes() {
        push_node(alloc, &mut out, node)?;
        push_edges(&mut out, &lock.graph, node)?;
    }
    for (name, package) in lock.graph.providers() {
        push(&mut out, " provider ", name.as_str())?;
        push(&mut out, "=", package.as_str())?;
    }
    for (spec, hash) in lock.roots.as_slice() {
        push(&mut out, " root ", hash.as_str())?;
        push(&mut out, " [", spec.as_str())?;
        out.push_str("]")?;
    }
    for (name, hash) in lock.hashes.as_slice() {
        push(&mut out, " hash ", name.as_str())?;
        push(&mut out, "=", hash.as_str())?;
    }
    Ok(out)
}

fn push(out: &mut String, what: &str, text: &str) -> Shown {
    out.push_str(what)?;
    out.push_str(text)
}

fn push_node(alloc: Global, out: &mut String, node: &Node) -> Shown {
    push(out, " node ", node.name.as_str())?;
    push(out, "@", node.version.text())?;
    for (name, values) in node.variants.as_slice() {
        push(out, " ", name.as_str())?;
        push_values(out, values.values())?;
    }
    if let Some(compiler) = &node.compiler {
        push(out, " %", compiler.name.as_str())?;
        push(out, "@", compiler.version.text())?;
    }
    push(out, " os ", node.os.as_str())?;
    push(out, " target ", node.target.as_str())?;
    if let Some(prefix) = &node.prefix {
        push(out, " prefix ", prefix.as_str())?;
    }
    push_origin(alloc, out, &node.origin)
}

fn push_values(out: &mut String, values: &[Word]) -> Shown {
    let mut sign = "=";
    for value in values {
        push(out, sign, value.as_str())?;
        sign = ",";
    }
    Ok(())
}

fn push_origin(alloc: Global, out: &mut String, origin: &Origin) -> Shown {
    match origin {
        Origin::Built => out.push_str(" built"),
        Origin::External(entry) => {
            let text = format!(in alloc; " external {entry}")?;
            out.push_str(text.as_str())
        }
        Origin::Installed(hash) => push(out, " installed ", hash.as_str()),
    }
}

fn push_edges(out: &mut String, graph: &Graph, node: &Node) -> Shown {
    for edge in graph.edges_from(node.name.as_str()) {
        push_edge(out, edge)?;
    }
    Ok(())
}

fn push_edge(out: &mut String, edge: &Edge) -> Shown {
    push(out, " to ", edge.child.as_str())?;
    out.push_str(":")?;
    push_kinds(out, &edge.kinds)?;
    push_values(out, edge.virtuals.values())
}

fn push_kinds(out: &mut String, kinds: &Kinds) -> Shown {
    if kinds.build {
        out.push_str("b")?;
    }
    if kinds.link {
        out.push_str("l")?;
    }
    if kinds.run {
        out.push_str("r")?;
    }
    Ok(())
}
