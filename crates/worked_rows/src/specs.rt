//! Rows of specs.
use crate::fields::{Field, text_of};
use crate::shown::shown_specs;
use crate::stop::{Stop, agreed};
use plain_data::List;
use spec_grammar::{
    Part, Spec, SpecFault, read_condition, read_condition_bytes, read_dependency,
    read_dependency_bytes, read_provision, read_provision_bytes, read_specs, read_specs_bytes,
    write_spec,
};
use std::alloc::{AllocError, Global};
use std::str;

fn one_spec(alloc: Global, spec: Spec) -> Result<List<Spec>, SpecFault> {
    let mut specs = List::new(alloc);
    specs.push(spec)?;
    Ok(specs)
}

fn one_part(alloc: Global, top: Part) -> Result<List<Spec>, SpecFault> {
    let below = List::new(alloc);
    one_spec(alloc, Spec { top, below })
}

/// What the reader of texts of that kind gives.
fn read(alloc: Global, kind: &str, text: &str) -> Result<List<Spec>, SpecFault> {
    match kind {
        "condition" => one_spec(alloc, read_condition(alloc, text)?),
        "dependency" => one_part(alloc, read_dependency(alloc, text)?),
        "provision" => one_part(alloc, read_provision(alloc, text)?),
        _ => read_specs(alloc, text),
    }
}

/// What the reader of bytes of that kind gives.
fn read_bytes(alloc: Global, kind: &str, text: &[u8]) -> Result<List<Spec>, SpecFault> {
    match kind {
        "condition" => one_spec(alloc, read_condition_bytes(alloc, text)?),
        "dependency" => one_part(alloc, read_dependency_bytes(alloc, text)?),
        "provision" => one_part(alloc, read_provision_bytes(alloc, text)?),
        _ => read_specs_bytes(alloc, text),
    }
}

/// What is read, field by field, or the fault.
fn shown(alloc: Global, read: Result<List<Spec>, SpecFault>) -> Result<String, AllocError> {
    match read {
        Ok(specs) => shown_specs(alloc, specs.as_slice()),
        Err(fault) => format!(in alloc; "{fault:?}"),
    }
}

/// What the two readers of that kind give.
fn read_both(alloc: Global, kind: &str, text: &str) -> Result<String, Stop> {
    let got = shown(alloc, read(alloc, kind, text))?;
    let again = shown(alloc, read_bytes(alloc, kind, text.as_bytes()))?;
    agreed(got, again.as_str())
}

/// The canonical text of a spec, which is read again as the same.
fn write(alloc: Global, specs: &[Spec]) -> Result<String, Stop> {
    let [spec] = specs else {
        return Err(Stop::NoRow);
    };
    let written = write_spec(alloc, spec)?;
    let Ok(text) = str::from_utf8(written.as_slice()) else {
        return Err(Stop::TwoAnswers);
    };
    let again = shown(alloc, read_specs(alloc, text))?;
    agreed(again, shown_specs(alloc, specs)?.as_str())?;
    Ok(String::from_str(alloc, text)?)
}

pub(crate) fn answer(
    alloc: Global,
    kind: &str,
    name: &str,
    args: &[Field],
) -> Result<String, Stop> {
    match (kind, name, args) {
        ("specs" | "condition" | "dependency" | "provision", "read", [text]) => {
            read_both(alloc, kind, text_of(text)?)
        }
        ("spec", "write", [text]) => match read_specs(alloc, text_of(text)?) {
            Ok(specs) => write(alloc, specs.as_slice()),
            Err(_) => Err(Stop::NoRow),
        },
        _ => Err(Stop::NoRow),
    }
}
