//! The lines of demands.

ghost use Rattle.std.specs.Prelude.{◌≡◌, ◌++◌, ◌==◌, decimal, slice_get, OnOk, IfOk};
ghost use Rattle.std.specs.Option.{option_copied};
ghost use Rattle.std.specs.List.{list_any};
ghost use Rattle.problem.specs.Problems.{depends_at, conflicts_at};
ghost use Rattle.run_answers.specs.Texts as texts;

use problem::{Demand, Problem, conflicts_at, depends_at};
use spec_grammar::{Spec, write_spec};
use std::alloc::{AllocError, Global};

// Each of these that takes `out` appends a text to it, or some of it after an error.

fn write_number(alloc: Global, number: u64, out: &mut Vec<u8>) -> Result<(), AllocError>
    ensures { OnOk result (out.new.items ≡ out.old.items ++ decimal number) }
{
    let text = format!(in alloc; "{number}")?;
    out.extend_from_slice(text.as_bytes())
}

/// The canonical text of a root, where there is one.
fn write_text_of(alloc: Global, spec: Option<&Spec>, out: &mut Vec<u8>) -> Result<(), AllocError>
    ensures { OnOk result (out.new.items ≡ out.old.items
        ++ texts.text_of_root (option_copied spec.entry)) }
{
    match spec {
        Some(spec) => {
            let text = write_spec(alloc, spec)?;
            out.extend_from_slice(text.as_slice())
        }
        None => Ok(()),
    }
}

fn root_at(problem: &Problem, place: u64) -> Option<&Spec>
    ensures { option_copied result ≡ slice_get problem.now.roots place }
{
    problem.roots().get(place as usize)
}

/// A root by its place and its canonical text.
#[tactic(auto, unfolding(crate::specs::Texts::root_line))]
pub fn write_root(
    alloc: Global,
    problem: &Problem,
    place: u64,
    out: &mut Vec<u8>,
) -> Result<(), AllocError>
    ensures { OnOk result (out.new.items ≡ out.old.items ++ texts.root_line problem.now place) }
{
    out.extend_from_slice(b"root ")?;
    write_number(alloc, place, out)?;
    out.extend_from_slice(b" ")?;
    write_text_of(alloc, root_at(problem, place), out)?;
    out.extend_from_slice(b"\n")
}

fn is_dependency(problem: &Problem, owner: &str, number: u64) -> bool
    ensures { result ≡ list_any (λ row. row.number == number) (depends_at problem.now owner.now) }
{
    depends_at(problem, owner)
        .iter()
        .any(|row| row.number == number)
}

fn is_conflict(problem: &Problem, owner: &str, number: u64) -> bool
    ensures { result ≡ list_any (λ row. row.number == number) (conflicts_at problem.now owner.now) }
{
    conflicts_at(problem, owner)
        .iter()
        .any(|row| row.number == number)
}

/// Which directive of a package has the number.
#[tactic(auto, unfolding(crate::specs::Texts::directive_word))]
fn directive_word(problem: &Problem, owner: &str, number: u64) -> &'static str
    ensures { result.now ≡ texts.directive_word problem.now owner.now number }
{
    if is_dependency(problem, owner, number) {
        "depends_on"
    } else if is_conflict(problem, owner, number) {
        "conflicts"
    } else {
        "requires"
    }
}

/// A directive by its package, its word and its number.
#[tactic(auto, unfolding(crate::specs::Texts::directive_line))]
fn write_directive(
    alloc: Global,
    problem: &Problem,
    owner: &str,
    number: u64,
    out: &mut Vec<u8>,
) -> Result<(), AllocError>
    ensures { OnOk result (out.new.items ≡ out.old.items
        ++ texts.directive_line problem.now owner.now number) }
{
    out.extend_from_slice(owner.as_bytes())?;
    out.extend_from_slice(b" ")?;
    out.extend_from_slice(directive_word(problem, owner, number).as_bytes())?;
    out.extend_from_slice(b" ")?;
    write_number(alloc, number, out)?;
    out.extend_from_slice(b"\n")
}

/// A requirement of the settings by its package and its place.
#[tactic(auto, unfolding(crate::specs::Texts::setting_line))]
fn write_setting(
    alloc: Global,
    owner: &str,
    place: u64,
    out: &mut Vec<u8>,
) -> Result<(), AllocError>
    ensures { OnOk result (out.new.items ≡ out.old.items ++ texts.setting_line owner.now place) }
{
    out.extend_from_slice(owner.as_bytes())?;
    out.extend_from_slice(b" require ")?;
    write_number(alloc, place, out)?;
    out.extend_from_slice(b"\n")
}

/// The line of a demand.
fn write_demand(
    alloc: Global,
    problem: &Problem,
    demand: Option<&Demand>,
    out: &mut Vec<u8>,
) -> Result<(), AllocError>
    ensures { OnOk result (out.new.items ≡ out.old.items
        ++ texts.line_for problem.now (option_copied demand.entry)) }
{
    match demand {
        Some(Demand::Root(place)) => write_root(alloc, problem, *place, out),
        Some(
            Demand::Directive {
                package: owner,
                number,
            },
        ) => { write_directive(alloc, problem, owner.as_str(), *number, out) }
        Some(
            Demand::Setting {
                package: owner,
                number,
            },
        ) => { write_setting(alloc, owner.as_str(), *number, out) }
        None => Ok(()),
    }
}

/// A line for each demand, by its number among those of the problem, from 0: `root N TEXT` with the
/// place and the canonical text of a root, `PACKAGE depends_on N`, `PACKAGE conflicts N` or
/// `PACKAGE requires N` with the number of a directive, `PACKAGE require N` with the place of a
/// requirement of the settings. Numbers that no demand has are passed over.
pub fn write_reasons(
    alloc: Global,
    problem: &Problem,
    demands: &[u64],
) -> Result<Vec<u8>, AllocError>
    ensures { IfOk result (λ text. text.items ≡ texts.reasons_text problem.now demands.now) }
{
    let mut out = Vec::new(alloc);
    for id in demands {
        write_demand(alloc, problem, problem.demand(*id), &mut out)?;
    }
    Ok(out)
}
