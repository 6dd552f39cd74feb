//! The canonical text of a spec.

ghost use Rattle.std.specs.Prelude.{◌≡◌, ◌++◌, ◌∷◌, [], OnOk, IfOk};
ghost use Rattle.spec_grammar.specs.Items.{spell_more_values, spell_values, spell_list};
ghost use Rattle.spec_grammar.specs.Canonical.{word_text, key_text, values_text, one_text, variant_text, variants_text, part_compiler_text, target_text, more_targets, targets_items, targets_text, part_text, below_text, spec_text};

use crate::{Part, Spec, TargetItem};
use plain_data::{List, Word};
use std::alloc::{AllocError, Global};
use variant_values::ValueSet;
use version_order::VersionSet;

// Each of these appends a text to `out`, or some of it after an error.

fn write_bytes(text: &[u8], out: &mut Vec<u8>) -> Result<(), AllocError>
    ensures { OnOk result (out.new.items ≡ out.old.items ++ text.now) }
{
    out.extend_from_slice(text)
}

fn write_word(word: &Word, out: &mut Vec<u8>) -> Result<(), AllocError>
    ensures { OnOk result (out.new.items ≡ out.old.items ++ word.now) }
{
    write_bytes(word.as_str().as_bytes(), out)
}

fn write_some(word: &Option<Word>, out: &mut Vec<u8>) -> Result<(), AllocError>
    ensures { OnOk result (out.new.items ≡ out.old.items ++ word_text word.now) }
{
    match word {
        Some(word) => write_word(word, out),
        None => Ok(()),
    }
}

fn write_list(versions: &Option<VersionSet>, out: &mut Vec<u8>) -> Result<(), AllocError>
    ensures { OnOk result (out.new.items ≡ out.old.items ++ spell_list versions.now) }
{
    let Some(versions) = versions else {
        return Ok(());
    };
    write_bytes(b"@", out)?;
    versions.write(out)
}

fn write_more(values: &[Word], out: &mut Vec<u8>) -> Result<(), AllocError>
    ensures { OnOk result (out.new.items ≡ out.old.items ++ spell_more_values values.now) }
{
    for value in values {
        write_bytes(b",", out)?;
        write_word(value, out)?;
    }
    Ok(())
}

fn write_values(values: &[Word], out: &mut Vec<u8>) -> Result<(), AllocError>
    ensures { OnOk result (out.new.items ≡ out.old.items ++ spell_values values.now) }
{
    let Some((first, others)) = values.split_first() else {
        return Ok(());
    };
    write_word(first, out)?;
    write_more(others, out)
}

/// `NAME=` with values.
fn write_key(name: &Word, values: &[Word], out: &mut Vec<u8>) -> Result<(), AllocError>
    ensures { OnOk result (out.new.items ≡ out.old.items ++ values_text name.now values.now) }
{
    write_word(name, out)?;
    write_bytes(b"=", out)?;
    write_values(values, out)
}

fn write_marked(mark: &[u8], name: &Word, out: &mut Vec<u8>) -> Result<(), AllocError>
    ensures { OnOk result (out.new.items ≡ out.old.items ++ mark.now ++ name.now) }
{
    write_bytes(mark, out)?;
    write_word(name, out)
}

/// A variant, by its values.
fn write_variant(name: &Word, values: &[Word], out: &mut Vec<u8>) -> Result<(), AllocError>
    ensures { OnOk result (out.new.items ≡ out.old.items ++ variant_text name.now values.now) }
{
    if let [value] = values {
        if value.as_str() == "true" {
            return write_marked(b"+", name, out);
        }
        if value.as_str() == "false" {
            return write_marked(b"~", name, out);
        }
    }
    write_key(name, values, out)
}

/// Appends variants, each after a space: `+v` for the set of `true` alone, `~v` for `false` alone, and
/// `v=a,b` for any other. After an error some of it was appended.
pub fn write_variants(variants: &[(Word, ValueSet)], out: &mut Vec<u8>) -> Result<(), AllocError>
    ensures { OnOk result (out.new.items ≡ out.old.items ++ variants_text variants.now) }
{
    for variant in variants {
        write_bytes(b" ", out)?;
        write_variant(&variant.0, variant.1.values(), out)?;
    }
    Ok(())
}

/// ` %gcc@12`, where a compiler is asked for.
fn write_compiler(
    compiler: &Option<(Word, Option<VersionSet>)>,
    out: &mut Vec<u8>,
) -> Result<(), AllocError>
    ensures { OnOk result (out.new.items ≡ out.old.items ++ part_compiler_text compiler.now) }
{
    let Some((name, versions)) = compiler else {
        return Ok(());
    };
    write_bytes(b" %", out)?;
    write_word(name, out)?;
    write_list(versions, out)
}

/// A key and its one value, where there is one.
fn write_one(key: &[u8], value: &Option<Word>, out: &mut Vec<u8>) -> Result<(), AllocError>
    ensures { OnOk result (out.new.items ≡ out.old.items ++ key_text key.now value.now) }
{
    let Some(value) = value else {
        return Ok(());
    };
    write_bytes(key, out)?;
    write_word(value, out)
}

/// `zen3`, or a range as `zen2:zen4`, of which an end may be missing.
fn write_target(target: &TargetItem, out: &mut Vec<u8>) -> Result<(), AllocError>
    ensures { OnOk result (out.new.items ≡ out.old.items ++ target_text target.now) }
{
    write_some(&target.low, out)?;
    if !target.range {
        return Ok(());
    }
    write_bytes(b":", out)?;
    write_some(&target.high, out)
}

fn write_more_targets(targets: &[TargetItem], out: &mut Vec<u8>) -> Result<(), AllocError>
    ensures { OnOk result (out.new.items ≡ out.old.items ++ more_targets targets.now) }
{
    for target in targets {
        write_bytes(b",", out)?;
        write_target(target, out)?;
    }
    Ok(())
}

/// ` target=zen3,x86_64:`, where targets are asked for.
fn write_targets(targets: &Option<List<TargetItem>>, out: &mut Vec<u8>) -> Result<(), AllocError>
    ensures { OnOk result (out.new.items ≡ out.old.items ++ targets_text targets.now) }
{
    let Some(targets) = targets else {
        return Ok(());
    };
    write_bytes(b" target=", out)?;
    let Some((first, others)) = targets.as_slice().split_first() else {
        return Ok(());
    };
    write_target(first, out)?;
    write_more_targets(others, out)
}

/// A part, its constraints in the order of canonical texts.
#[tactic(auto, unfolding(crate::specs::Canonical::part_text))]
fn write_part(part: &Part, out: &mut Vec<u8>) -> Result<(), AllocError>
    ensures { OnOk result (out.new.items ≡ out.old.items ++ part_text part.now) }
{
    write_some(&part.name, out)?;
    write_list(&part.versions, out)?;
    write_variants(part.variants.as_slice(), out)?;
    write_compiler(&part.compiler, out)?;
    write_one(b" platform=", &part.platform, out)?;
    write_one(b" os=", &part.os, out)?;
    write_targets(&part.targets, out)?;
    Ok(())
}

fn write_below(below: &[Part], out: &mut Vec<u8>) -> Result<(), AllocError>
    ensures { OnOk result (out.new.items ≡ out.old.items ++ below_text below.now) }
{
    for part in below {
        write_bytes(b" ^", out)?;
        write_part(part, out)?;
    }
    Ok(())
}

/// The canonical text of a spec: the name, `@LIST`, and then each after one space: the variants in byte
/// order of their names as `+v`, `~v` or `v=a,b` with the values in byte order; `%c` with `@LIST`;
/// `platform=`; `os=`; `target=`; and each `^` with the text of its part. The text of a part without a
/// name begins with a space.
#[tactic(auto, unfolding(crate::specs::Canonical::spec_text))]
pub fn write_spec(alloc: Global, spec: &Spec) -> Result<Vec<u8>, AllocError>
    ensures { IfOk result (λ text. text.items ≡ spec_text spec.now) }
{
    let mut out = Vec::new(alloc);
    write_part(&spec.top, &mut out)?;
    write_below(spec.below.as_slice(), &mut out)?;
    Ok(out)
}
