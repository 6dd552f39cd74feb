//! Specs, field by field, as one text.
use plain_data::{List, Word};
use spec_grammar::{Part, Spec, TargetItem};
use std::alloc::{AllocError, Global};
use variant_values::ValueSet;
use version_order::VersionSet;

fn push_word(out: &mut String, field: &str, word: &Option<Word>) -> Result<(), AllocError> {
    match word {
        Some(word) => write!(out, " {field}[{}]", word.as_str()),
        None => Ok(()),
    }
}

fn push_versions(
    alloc: Global,
    out: &mut String,
    field: &str,
    versions: &Option<VersionSet>,
) -> Result<(), AllocError> {
    let Some(versions) = versions else {
        return Ok(());
    };
    let mut bytes = Vec::new(alloc);
    versions.write(&mut bytes)?;
    let text = String::from_utf8_lossy(alloc, &bytes)?;
    write!(out, " {field}[{}]", text.as_str())
}

fn push_values(out: &mut String, name: &str, values: &ValueSet) -> Result<(), AllocError> {
    write!(out, " {name}=")?;
    for value in values.values() {
        write!(out, "{};", value.as_str())?;
    }
    Ok(())
}

fn text_of(end: &Option<Word>) -> &str {
    match end {
        Some(word) => word.as_str(),
        None => "",
    }
}

fn push_targets(out: &mut String, targets: &Option<List<TargetItem>>) -> Result<(), AllocError> {
    let Some(targets) = targets else {
        return Ok(());
    };
    out.push_str(" target")?;
    for target in targets.as_slice() {
        let (low, high) = (text_of(&target.low), text_of(&target.high));
        let between = if target.range { ":" } else { "" };
        write!(out, "<{low}{between}{high}>")?;
    }
    Ok(())
}

fn push_part(alloc: Global, out: &mut String, part: &Part) -> Result<(), AllocError> {
    push_word(out, "name", &part.name)?;
    push_versions(alloc, out, "versions", &part.versions)?;
    for (name, values) in part.variants.as_slice() {
        push_values(out, name.as_str(), values)?;
    }
    if let Some((name, versions)) = &part.compiler {
        write!(out, " compiler[{}]", name.as_str())?;
        push_versions(alloc, out, "of", versions)?;
    }
    push_word(out, "platform", &part.platform)?;
    push_word(out, "os", &part.os)?;
    push_targets(out, &part.targets)
}

/// Specs, each behind a `|`, and each of its dependencies behind a `^`.
pub(crate) fn shown_specs(alloc: Global, specs: &[Spec]) -> Result<String, AllocError> {
    let mut out = String::new(alloc);
    for spec in specs {
        out.push('|')?;
        push_part(alloc, &mut out, &spec.top)?;
        for part in spec.below.as_slice() {
            out.push_str(" ^")?;
            push_part(alloc, &mut out, part)?;
        }
    }
    Ok(out)
}
