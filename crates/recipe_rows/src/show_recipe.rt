//! Recipes as texts.

use crate::show::{lex_fault_text, spec_fault_text};
use graph_core::Kinds;
use plain_data::{Duplicate, List};
use recipe_data::{
    Condition, ConflictRow, DependRow, ProvideRow, Recipe, RequireRow, VariantRow, VersionRow,
};
use recipe_reader::RecipeFault;
use spec_grammar::{Spec, write_spec};
use std::alloc::{AllocError, Global};
use variant_values::{ValueSet, VariantKind};

fn push_bytes(out: &mut String, bytes: &[u8]) -> Result<(), AllocError> {
    match str::from_utf8(bytes) {
        Ok(text) => out.push_str(text),
        Err(_) => out.push_str("?"),
    }
}

fn push_spec(alloc: Global, out: &mut String, spec: &Spec) -> Result<(), AllocError> {
    let text = write_spec(alloc, spec)?;
    out.push_str(" [")?;
    push_bytes(out, &text)?;
    out.push_str("]")
}

fn push_specs(alloc: Global, out: &mut String, specs: &List<Spec>) -> Result<(), AllocError> {
    for spec in specs.as_slice() {
        push_spec(alloc, out, spec)?;
    }
    Ok(())
}

/// The condition and the number of a row.
fn push_end(
    alloc: Global,
    out: &mut String,
    when: &Condition,
    number: u64,
) -> Result<(), AllocError> {
    if !when.specs.is_empty() {
        out.push_str(" if")?;
        push_specs(alloc, out, &when.specs)?;
    }
    out.push_str(format!(in alloc; " #{number} ")?.as_str())
}

fn push_version(alloc: Global, out: &mut String, row: &VersionRow) -> Result<(), AllocError> {
    out.push_str("version ")?;
    out.push_str(row.version.text())?;
    if row.preferred {
        out.push_str(" preferred")?;
    }
    if row.deprecated {
        out.push_str(" deprecated")?;
    }
    let number = row.number;
    out.push_str(format!(in alloc; " #{number} ")?.as_str())
}

fn push_values(out: &mut String, values: &ValueSet) -> Result<(), AllocError> {
    let mut between = " ";
    for word in values.values() {
        out.push_str(between)?;
        out.push_str(word.as_str())?;
        between = ",";
    }
    Ok(())
}

fn kind_text(kind: VariantKind) -> &'static str {
    match kind {
        VariantKind::Bool => " bool",
        VariantKind::Single => " single",
        VariantKind::Multi => " multi",
    }
}

fn push_variant(alloc: Global, out: &mut String, row: &VariantRow) -> Result<(), AllocError> {
    out.push_str("variant ")?;
    out.push_str(row.name.as_str())?;
    out.push_str(kind_text(row.kind))?;
    push_values(out, &row.values)?;
    out.push_str(" default")?;
    push_values(out, &row.default)?;
    push_end(alloc, out, &row.when, row.number)
}

fn push_kinds(out: &mut String, kinds: Kinds) -> Result<(), AllocError> {
    let mut between = " ";
    for (is, text) in [
        (kinds.build, "build"),
        (kinds.link, "link"),
        (kinds.run, "run"),
    ] {
        if is {
            out.push_str(between)?;
            out.push_str(text)?;
            between = ",";
        }
    }
    Ok(())
}

// The row is a copy, whose part becomes a spec.
fn push_part(alloc: Global, out: &mut String, row: DependRow) -> Result<(), AllocError> {
    let spec = Spec {
        top: row.part,
        below: List::new(alloc),
    };
    push_spec(alloc, out, &spec)
}

fn push_depend(alloc: Global, out: &mut String, row: &DependRow) -> Result<(), AllocError> {
    out.push_str("depends")?;
    push_part(alloc, out, row.duplicate(alloc)?)?;
    push_kinds(out, row.kinds)?;
    push_end(alloc, out, &row.when, row.number)
}

fn push_provide(alloc: Global, out: &mut String, row: &ProvideRow) -> Result<(), AllocError> {
    out.push_str("provides ")?;
    out.push_str(row.name.as_str())?;
    if let Some(versions) = &row.versions {
        let mut text = Vec::new(alloc);
        versions.write(&mut text)?;
        out.push_str("@")?;
        push_bytes(out, &text)?;
    }
    push_end(alloc, out, &row.when, row.number)
}

fn push_conflict(alloc: Global, out: &mut String, row: &ConflictRow) -> Result<(), AllocError> {
    out.push_str("conflicts")?;
    push_spec(alloc, out, &row.spec)?;
    push_end(alloc, out, &row.when, row.number)
}

fn push_requirement(alloc: Global, out: &mut String, row: &RequireRow) -> Result<(), AllocError> {
    out.push_str(if row.one_of {
        "requires one_of"
    } else {
        "requires any_of"
    })?;
    push_specs(alloc, out, &row.specs)?;
    push_end(alloc, out, &row.when, row.number)
}

/// The rows of a recipe, by the kinds of directives.
pub(crate) fn recipe_text(alloc: Global, recipe: &Recipe) -> Result<String, AllocError> {
    let mut out = String::new(alloc);
    for row in recipe.versions.as_slice() {
        push_version(alloc, &mut out, row)?;
    }
    for row in recipe.variants.as_slice() {
        push_variant(alloc, &mut out, row)?;
    }
    for row in recipe.provides.as_slice() {
        push_provide(alloc, &mut out, row)?;
    }
    for row in recipe.conflicts.as_slice() {
        push_conflict(alloc, &mut out, row)?;
    }
    for row in recipe.requirements.as_slice() {
        push_requirement(alloc, &mut out, row)?;
    }
    for row in recipe.depends.as_slice() {
        push_depend(alloc, &mut out, row)?;
    }
    if out.is_empty() {
        return String::from_str(alloc, "none");
    }
    Ok(out)
}

/// A fault, as `BadArgument 30`.
pub(crate) fn recipe_fault_text(alloc: Global, fault: RecipeFault) -> Result<String, AllocError> {
    match fault {
        RecipeFault::Lex(fault) => {
            let text = lex_fault_text(alloc, fault)?;
            format!(in alloc; "Lex {text}")
        }
        RecipeFault::Unsupported(place) => format!(in alloc; "Unsupported {place}"),
        RecipeFault::NoClass => String::from_str(alloc, "NoClass"),
        RecipeFault::TwoClasses(place) => format!(in alloc; "TwoClasses {place}"),
        RecipeFault::TooDeep(place) => format!(in alloc; "TooDeep {place}"),
        RecipeFault::Spec(place, fault) => {
            let text = spec_fault_text(alloc, fault)?;
            format!(in alloc; "Spec {place} {text}")
        }
        RecipeFault::BadArgument(place) => format!(in alloc; "BadArgument {place}"),
        RecipeFault::BadDefault(place) => format!(in alloc; "BadDefault {place}"),
        RecipeFault::TwiceVersion(place) => format!(in alloc; "TwiceVersion {place}"),
        RecipeFault::OutOfMemory => String::from_str(alloc, "OutOfMemory"),
    }
}
