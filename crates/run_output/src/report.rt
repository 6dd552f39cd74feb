//! What is said of a graph.

ghost use Rattle.std.specs.Prelude.{◌≡◌, ◌++◌, ◌∷◌, [], None, IfOk, OnOk, codes, decimal};
ghost use Rattle.graph_core.specs.declared.node.Origin.TheVariants.{External, Installed};
ghost use Rattle.run_output.specs.Report.{compiler_text, installed_end, installed_line, label_text, machine_text, node_line, origin_text, place_text, record_line, report_text, vector_line, worked_node};

use graph_core::{Compiler, Node, Origin};
use reuse_db::Record;
use spec_find::installed_node;
use spec_grammar::write_variants;
use std::alloc::{AllocError, Global};

// Each of these appends a text to `out`, or some of it after an error.

/// The compiler of a node, where it has one: ` %gcc@=12.3.0`.
#[tactic(auto, unfolding(crate::specs::Report::compiler_text))]
fn write_compiler(compiler: &Option<Compiler>, out: &mut Vec<u8>) -> Result<(), AllocError>
    ensures { OnOk result (out.new.items ≡ out.old.items ++ compiler_text compiler.now) }
{
    match compiler {
        None => Ok(()),
        Some(compiler) => {
            out.extend_from_slice(b" %")?;
            out.extend_from_slice(compiler.name.as_str().as_bytes())?;
            out.extend_from_slice(b"@=")?;
            out.extend_from_slice(compiler.version.text().as_bytes())
        }
    }
}

#[tactic(auto, unfolding(crate::specs::Report::label_text))]
fn write_label(node: &Node, out: &mut Vec<u8>) -> Result<(), AllocError>
    ensures { OnOk result (out.new.items ≡ out.old.items ++ label_text node.now) }
{
    out.extend_from_slice(node.name.as_str().as_bytes())?;
    out.extend_from_slice(b"@=")?;
    out.extend_from_slice(node.version.text().as_bytes())
}

fn write_number(alloc: Global, number: u64, out: &mut Vec<u8>) -> Result<(), AllocError>
    ensures { OnOk result (out.new.items ≡ out.old.items ++ 32 ∷ decimal number) }
{
    let text = format!(in alloc; " {number}")?;
    out.extend_from_slice(text.as_bytes())
}

/// Where a node comes from: ` built`, ` external 0`, ` installed HASH`.
#[tactic(auto, unfolding(crate::specs::Report::origin_text))]
fn write_origin(alloc: Global, origin: &Origin, out: &mut Vec<u8>) -> Result<(), AllocError>
    ensures { OnOk result (out.new.items ≡ out.old.items ++ origin_text origin.now) }
{
    match origin {
        Origin::Built => out.extend_from_slice(b" built"),
        Origin::External(entry) => {
            out.extend_from_slice(b" external")?;
            write_number(alloc, *entry, out)
        }
        Origin::Installed(hash) => {
            out.extend_from_slice(b" installed ")?;
            out.extend_from_slice(hash.as_str().as_bytes())
        }
    }
}

/// The OS and the target of a node.
#[tactic(auto, unfolding(crate::specs::Report::place_text))]
fn write_place(node: &Node, out: &mut Vec<u8>) -> Result<(), AllocError>
    ensures { OnOk result (out.new.items ≡ out.old.items ++ place_text node.now) }
{
    out.extend_from_slice(b" os=")?;
    out.extend_from_slice(node.os.as_str().as_bytes())?;
    out.extend_from_slice(b" target=")?;
    out.extend_from_slice(node.target.as_str().as_bytes())
}

/// The machine of a node, where it comes from, and the end of its line.
#[tactic(auto, unfolding(crate::specs::Report::machine_text))]
fn write_machine(alloc: Global, node: &Node, out: &mut Vec<u8>) -> Result<(), AllocError>
    ensures { OnOk result (out.new.items ≡ out.old.items ++ machine_text node.now) }
{
    write_place(node, out)?;
    write_origin(alloc, &node.origin, out)?;
    out.extend_from_slice(b"\n")
}

#[tactic(auto, unfolding(crate::specs::Report::node_line))]
pub(crate) fn write_node(alloc: Global, node: &Node, out: &mut Vec<u8>) -> Result<(), AllocError>
    ensures { OnOk result (out.new.items ≡ out.old.items ++ node_line node.now) }
{
    write_label(node, out)?;
    write_variants(node.variants.as_slice(), out)?;
    write_compiler(&node.compiler, out)?;
    write_machine(alloc, node, out)
}

/// The machine of an installed package, and the end of its line.
#[tactic(auto, unfolding(crate::specs::Report::installed_end))]
fn write_installed_end(node: &Node, out: &mut Vec<u8>) -> Result<(), AllocError>
    ensures { OnOk result (out.new.items ≡ out.old.items ++ installed_end node.now) }
{
    write_place(node, out)?;
    out.extend_from_slice(b" installed\n")
}

/// The node of an installed package, and the end of its line.
#[tactic(auto, unfolding(crate::specs::Report::installed_line))]
fn write_installed(node: &Node, out: &mut Vec<u8>) -> Result<(), AllocError>
    ensures { OnOk result (out.new.items ≡ out.old.items ++ installed_line node.now) }
{
    write_label(node, out)?;
    write_variants(node.variants.as_slice(), out)?;
    write_compiler(&node.compiler, out)?;
    write_installed_end(node, out)
}

/// The line of an installed package: its hash, and its node.
#[tactic(auto, unfolding(crate::specs::Report::record_line))]
pub(crate) fn write_record(
    alloc: Global,
    entry: &Record,
    out: &mut Vec<u8>,
) -> Result<(), AllocError>
    ensures { OnOk result (out.new.items ≡ out.old.items ++ record_line entry.now) }
{
    let node = installed_node(alloc, entry)?;
    out.extend_from_slice(entry.hash.as_str().as_bytes())?;
    out.extend_from_slice(b" ")?;
    write_installed(&node, out)
}

#[tactic(auto, unfolding(crate::specs::Report::vector_line))]
pub(crate) fn write_vector(
    alloc: Global,
    numbers: &[u64],
    out: &mut Vec<u8>,
) -> Result<(), AllocError>
    ensures { OnOk result (out.new.items ≡ out.old.items ++ vector_line numbers.now) }
{
    out.extend_from_slice(b"vector")?;
    for number in numbers {
        write_number(alloc, *number, out)?;
    }
    out.extend_from_slice(b"\n")
}

/// A line for each node, and the line of the cost vector.
pub fn report_text(alloc: Global, nodes: &[Node], numbers: &[u64]) -> Result<Vec<u8>, AllocError>
    ensures { IfOk result (λ text. text.items ≡ report_text nodes.now numbers.now) }
{
    let mut text = Vec::new(alloc);
    for node in nodes {
        write_node(alloc, node, &mut text)?;
    }
    write_vector(alloc, numbers, &mut text)?;
    Ok(text)
}

/// The lines of a node that is built, an external and an installed one, and a vector's line, by
/// computation.
pub fn worked_texts()
    ensures line { node_line worked_node
        ≡ codes "zlib@=1.3 %gcc@=12.3.0 os=ubuntu22.04 target=x86_64 built\n" }
    ensures external { node_line (record worked_node { origin = External 0 })
        ≡ codes "zlib@=1.3 %gcc@=12.3.0 os=ubuntu22.04 target=x86_64 external 0\n" }
    ensures installed { node_line (record worked_node {
      variants = (codes "pic", codes "true" ∷ []) ∷ [];
      compiler = None;
      origin = Installed (codes "abc");
    })
        ≡ codes "zlib@=1.3 +pic os=ubuntu22.04 target=x86_64 installed abc\n" }
    ensures vector { vector_line (0 ∷ 12 ∷ 1 ∷ []) ≡ codes "vector 0 12 1\n" }
{}
