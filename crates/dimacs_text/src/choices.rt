//! What the literals of a table stand for, a line for each choice.

ghost use Rattle.std.specs.Prelude.{◌≡◌, ◌++◌, codes, OnOk};
ghost use Rattle.std.specs.List.{flat_map};
ghost use Rattle.dimacs_text.specs.Choices as lines;
ghost use Rattle.dimacs_text.specs.Meanings as meanings;

use crate::meanings::Meaning;
use crate::signs::write_lit;
use clause_store::Lit;
use literal_table::{Block, EdgeLits, LiteralTable, ProviderLits};
use plain_data::{List, Word};
use std::alloc::{AllocError, Global};

// Each of these appends a text to `out`, or some of it after an error.

/// A literal with the words of what it stands for.
#[tactic(auto, unfolding(crate::specs::Choices::choice_line))]
fn write_line(
    alloc: Global,
    lit: Lit,
    kind: &str,
    name: &str,
    words: &[u8],
    out: &mut Vec<u8>,
) -> Result<(), AllocError>
    ensures { OnOk result (out.new.items ≡ out.old.items
        ++ lines.choice_line lit kind.now name.now words.now) }
{
    out.extend_from_slice(b"c ")?;
    write_lit(alloc, lit, out)?;
    out.extend_from_slice(kind.as_bytes())?;
    out.extend_from_slice(b" ")?;
    out.extend_from_slice(name.as_bytes())?;
    out.extend_from_slice(words)?;
    out.extend_from_slice(b"\n")
}

/// One choice of a name.
fn write_choice<T: Meaning>(
    alloc: Global,
    kind: &str,
    name: &str,
    choice: &(T, Lit),
    out: &mut Vec<u8>,
) -> Result<(), AllocError>
    ensures { OnOk result (out.new.items ≡ out.old.items
        ++ lines.choice_line choice.now.1 kind.now name.now (T.meaning_of choice.now.0)) }
{
    let mut words = Vec::new(alloc);
    choice.0.write(alloc, &mut words)?;
    write_line(alloc, choice.1, kind, name, words.as_slice(), out)
}

/// The choices of an attribute.
fn write_choices<T: Meaning>(
    alloc: Global,
    kind: &str,
    name: &str,
    choices: &[(T, Lit)],
    out: &mut Vec<u8>,
) -> Result<(), AllocError>
    ensures { OnOk result (out.new.items ≡ out.old.items
        ++ lines.choice_lines T.meaning_of kind.now name.now choices.now) }
{
    for choice in choices {
        write_choice(alloc, kind, name, choice, out)?;
    }
    Ok(())
}

/// A value of a variant.
#[tactic(auto, unfolding(crate::specs::Choices::value_text))]
fn write_value(
    alloc: Global,
    name: &str,
    variant: &str,
    choice: &(Word, Lit),
    out: &mut Vec<u8>,
) -> Result<(), AllocError>
    ensures { OnOk result (out.new.items ≡ out.old.items
        ++ lines.choice_line choice.now.1 (codes "variant") name.now
        (lines.value_text variant.now choice.now.0)) }
{
    let mut words = Vec::new(alloc);
    words.extend_from_slice(b" ")?;
    words.extend_from_slice(variant.as_bytes())?;
    words.extend_from_slice(b"=")?;
    words.extend_from_slice(choice.0.as_str().as_bytes())?;
    write_line(alloc, choice.1, "variant", name, words.as_slice(), out)
}

/// The values of a variant.
fn write_values(
    alloc: Global,
    name: &str,
    variant: &str,
    values: &[(Word, Lit)],
    out: &mut Vec<u8>,
) -> Result<(), AllocError>
    ensures { OnOk result (out.new.items ≡ out.old.items
        ++ lines.value_lines name.now (variant.now, values.now)) }
{
    for choice in values {
        write_value(alloc, name, variant, choice, out)?;
    }
    Ok(())
}

/// The values of all variants.
fn write_variants(
    alloc: Global,
    name: &str,
    variants: &[(Word, List<(Word, Lit)>)],
    out: &mut Vec<u8>,
) -> Result<(), AllocError>
    ensures { OnOk result (out.new.items ≡ out.old.items
        ++ flat_map (lines.value_lines name.now) variants.now) }
{
    for variant in variants {
        write_values(alloc, name, variant.0.as_str(), variant.1.as_slice(), out)?;
    }
    Ok(())
}

/// What a node is: where it comes from, its version and its variants.
#[tactic(auto, unfolding(crate::specs::Choices::package_text))]
fn write_package(alloc: Global, block: &Block, out: &mut Vec<u8>) -> Result<(), AllocError>
    ensures { OnOk result (out.new.items ≡ out.old.items ++ lines.package_text block.now) }
{
    let name = block.name.as_str();
    write_line(alloc, block.present, "node", name, b"", out)?;
    write_choices(alloc, "origin", name, block.origins.as_slice(), out)?;
    write_choices(alloc, "version", name, block.versions.as_slice(), out)?;
    write_variants(alloc, name, block.variants.as_slice(), out)
}

/// What it is made with and for.
#[tactic(auto, unfolding(crate::specs::Choices::machine_text))]
fn write_machine(alloc: Global, block: &Block, out: &mut Vec<u8>) -> Result<(), AllocError>
    ensures { OnOk result (out.new.items ≡ out.old.items ++ lines.machine_text block.now) }
{
    let name = block.name.as_str();
    write_choices(alloc, "compiler", name, block.compilers.as_slice(), out)?;
    write_choices(alloc, "os", name, block.os.as_slice(), out)?;
    write_choices(alloc, "target", name, block.targets.as_slice(), out)?;
    write_choices(alloc, "prefix", name, block.prefixes.as_slice(), out)
}

/// The choices of a name.
fn write_block(alloc: Global, block: &Block, out: &mut Vec<u8>) -> Result<(), AllocError>
    ensures { OnOk result (out.new.items ≡ out.old.items ++ lines.block_text block.now) }
{
    write_package(alloc, block, out)?;
    write_machine(alloc, block, out)
}

/// A choice at an edge: of a kind of it, or of a virtual that it names.
#[tactic(auto, unfolding(crate::specs::Choices::kind_text))]
fn write_at_edge(
    alloc: Global,
    edge: &EdgeLits,
    choice: &str,
    word: &str,
    lit: Lit,
    out: &mut Vec<u8>,
) -> Result<(), AllocError>
    ensures { OnOk result (out.new.items ≡ out.old.items
        ++ lines.choice_line lit choice.now edge.now.parent
        (lines.kind_text edge.now.child word.now)) }
{
    let mut words = Vec::new(alloc);
    words.extend_from_slice(b" ")?;
    words.extend_from_slice(edge.child.as_str().as_bytes())?;
    words.extend_from_slice(b" ")?;
    words.extend_from_slice(word.as_bytes())?;
    write_line(
        alloc,
        lit,
        choice,
        edge.parent.as_str(),
        words.as_slice(),
        out,
    )
}

/// The virtuals that an edge may name.
fn write_names(
    alloc: Global,
    edge: &EdgeLits,
    virtuals: &[(Word, Lit)],
    out: &mut Vec<u8>,
) -> Result<(), AllocError>
    ensures { OnOk result (out.new.items ≡ out.old.items
        ++ flat_map (lines.name_line edge.now) virtuals.now) }
{
    for choice in virtuals {
        write_at_edge(alloc, edge, "names", choice.0.as_str(), choice.1, out)?;
    }
    Ok(())
}

/// The kinds of an edge, and what it may name.
#[tactic(auto, unfolding(crate::specs::Choices::edge_text))]
fn write_edge(alloc: Global, edge: &EdgeLits, out: &mut Vec<u8>) -> Result<(), AllocError>
    ensures { OnOk result (out.new.items ≡ out.old.items ++ lines.edge_text edge.now) }
{
    write_at_edge(alloc, edge, "edge", "build", edge.build, out)?;
    write_at_edge(alloc, edge, "edge", "link", edge.link, out)?;
    write_at_edge(alloc, edge, "edge", "run", edge.run, out)?;
    write_names(alloc, edge, edge.virtuals.as_slice(), out)
}

/// The packages that may provide a virtual.
fn write_provider(
    alloc: Global,
    provider: &ProviderLits,
    out: &mut Vec<u8>,
) -> Result<(), AllocError>
    ensures { OnOk result (out.new.items ≡ out.old.items ++ lines.provider_text provider.now) }
{
    write_choices(
        alloc,
        "provider",
        provider.name.as_str(),
        provider.packages.as_slice(),
        out,
    )
}

fn write_blocks(alloc: Global, blocks: &[Block], out: &mut Vec<u8>) -> Result<(), AllocError>
    ensures { OnOk result (out.new.items ≡ out.old.items ++ flat_map lines.block_text blocks.now) }
{
    for block in blocks {
        write_block(alloc, block, out)?;
    }
    Ok(())
}

fn write_edges(alloc: Global, edges: &[EdgeLits], out: &mut Vec<u8>) -> Result<(), AllocError>
    ensures { OnOk result (out.new.items ≡ out.old.items ++ flat_map lines.edge_text edges.now) }
{
    for edge in edges {
        write_edge(alloc, edge, out)?;
    }
    Ok(())
}

fn write_providers(
    alloc: Global,
    providers: &[ProviderLits],
    out: &mut Vec<u8>,
) -> Result<(), AllocError>
    ensures { OnOk result (out.new.items ≡ out.old.items
        ++ flat_map lines.provider_text providers.now) }
{
    for provider in providers {
        write_provider(alloc, provider, out)?;
    }
    Ok(())
}

/// The choices of a table.
#[tactic(auto, unfolding(crate::specs::Choices::table_text))]
pub(crate) fn write_table(
    alloc: Global,
    table: &LiteralTable,
    out: &mut Vec<u8>,
) -> Result<(), AllocError>
    ensures { OnOk result (out.new.items ≡ out.old.items ++ lines.table_text table.now) }
{
    write_blocks(alloc, table.blocks(), out)?;
    write_edges(alloc, table.edges(), out)?;
    write_providers(alloc, table.providers(), out)
}
