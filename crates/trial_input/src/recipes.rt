//! The texts of recipes.

ghost use Rattle.std.specs.Prelude.{◌≡◌, ◌≤◌, ◌<◌, ◌+◌, ◌++◌, ◌^◌, IfOk, OnOk};
ghost use Rattle.std.specs.String.{string_bytes};
ghost use Rattle.trial_input.specs.Recipes as texts;

use crate::draws::Draws;
use std::alloc::{AllocError, Global};

// Each of these appends a text to `out`, or some of it after an error.

#[tactic(auto, unfolding(crate::specs::Recipes::version_line))]
fn write_version(alloc: Global, number: u64, out: &mut Vec<u8>) -> Result<(), AllocError>
    ensures { OnOk result (out.new.items ≡ out.old.items ++ texts.version_line number) }
{
    let line = format!(in alloc; "    version(\"1.{number}\")\n")?;
    out.extend_from_slice(line.as_bytes())
}

/// So many versions, from 1.`from` on.
#[tactic(auto, using(crate::proofs::Counts::versions_start, crate::proofs::Counts::more_versions, crate::proofs::Counts::versions_done))]
fn write_versions(alloc: Global, from: u64, count: u64, out: &mut Vec<u8>) -> Result<(), AllocError>
    requires { from + count < 2 ^ 64 }
    ensures { OnOk result (out.new.items ≡ out.old.items ++ texts.version_lines from count) }
{
    for more in 0..count {
        write_version(alloc, from + more, out)?;
    }
    Ok(())
}

#[tactic(auto, unfolding(crate::specs::Recipes::depend_line))]
fn depend_line(alloc: Global, child: u64, conditional: bool) -> Result<String, AllocError>
    ensures { IfOk result (λ line. string_bytes line ≡ texts.depend_line child conditional) }
{
    if conditional {
        format!(in alloc; "    depends_on(\"p{child}@1.0:\", when=\"+a\")\n")
    } else {
        format!(in alloc; "    depends_on(\"p{child}@1.0:\")\n")
    }
}

fn write_depend(
    alloc: Global,
    child: u64,
    conditional: bool,
    out: &mut Vec<u8>,
) -> Result<(), AllocError>
    ensures { OnOk result (out.new.items ≡ out.old.items ++ texts.depend_line child conditional) }
{
    let line = depend_line(alloc, child, conditional)?;
    out.extend_from_slice(line.as_bytes())
}

/// One dependency of package `own`, on a later one.
#[tactic(auto, unfolding(crate::specs::Recipes::dependency))]
fn write_dependency(
    alloc: Global,
    packages: u64,
    own: u64,
    draws: &mut Draws,
    out: &mut Vec<u8>,
) -> Result<(), AllocError>
    requires { own + 1 < packages }
    ensures text { OnOk result (out.new.items ≡ out.old.items
        ++ (texts.dependency packages own draws.old.state).text) }
    ensures state { OnOk result (draws.new.state
        ≡ (texts.dependency packages own draws.old.state).state) }
{
    let child = own + 1 + draws.draw(packages - 1 - own);
    let conditional = draws.draw(2) == 1;
    write_depend(alloc, child, conditional, out)
}

#[tactic(auto, using(crate::proofs::Counts::needs_start, crate::proofs::Counts::state_start, crate::proofs::Counts::needs_done, crate::proofs::Counts::state_done))]
fn write_dependencies(
    alloc: Global,
    packages: u64,
    own: u64,
    count: u64,
    draws: &mut Draws,
    out: &mut Vec<u8>,
) -> Result<(), AllocError>
    requires { own + 1 < packages }
    ensures text { OnOk result (out.new.items ≡ out.old.items
        ++ (texts.dependencies packages own count draws.old.state).text) }
    ensures state { OnOk result (draws.new.state
        ≡ (texts.dependencies packages own count draws.old.state).state) }
{
    for _more in 0..count {
        write_dependency(alloc, packages, own, draws, out)?;
    }
    Ok(())
}

/// One to three dependencies, of all packages but the last.
#[tactic(auto, unfolding(crate::specs::Recipes::all_dependencies))]
fn write_all_dependencies(
    alloc: Global,
    packages: u64,
    own: u64,
    draws: &mut Draws,
    out: &mut Vec<u8>,
) -> Result<(), AllocError>
    requires { own < packages }
    ensures text { OnOk result (out.new.items ≡ out.old.items
        ++ (texts.all_dependencies packages own draws.old.state).text) }
    ensures state { OnOk result (draws.new.state
        ≡ (texts.all_dependencies packages own draws.old.state).state) }
{
    if own + 1 < packages {
        let count = 1 + draws.draw(3);
        write_dependencies(alloc, packages, own, count, draws, out)
    } else {
        Ok(())
    }
}

/// One in four packages with two versions or more conflicts with its first.
#[tactic(auto, unfolding(crate::specs::Recipes::conflict, crate::specs::Recipes::conflict_line))]
fn write_conflict(versions: u64, draws: &mut Draws, out: &mut Vec<u8>) -> Result<(), AllocError>
    ensures text { OnOk result (out.new.items ≡ out.old.items
        ++ (texts.conflict versions draws.old.state).text) }
    ensures state { OnOk result (draws.new.state
        ≡ (texts.conflict versions draws.old.state).state) }
{
    if 1 < versions {
        if draws.draw(4) == 0 {
            out.extend_from_slice(b"    conflicts(\"@=1.0\")\n")
        } else {
            Ok(())
        }
    } else {
        Ok(())
    }
}

/// The class, its versions and its variant.
#[tactic(auto, unfolding(crate::specs::Recipes::declared, crate::specs::Recipes::head_line, crate::specs::Recipes::variant_line))]
fn write_declared(alloc: Global, versions: u64, out: &mut Vec<u8>) -> Result<(), AllocError>
    ensures { OnOk result (out.new.items ≡ out.old.items ++ texts.declared versions) }
{
    out.extend_from_slice(b"class P(Package):\n")?;
    write_versions(alloc, 0, versions, out)?;
    out.extend_from_slice(b"    variant(\"a\", default=True)\n")
}

/// The recipe of package `own` of so many.
#[tactic(auto, unfolding(crate::specs::Recipes::recipe))]
pub(crate) fn write_recipe(
    alloc: Global,
    packages: u64,
    own: u64,
    draws: &mut Draws,
    out: &mut Vec<u8>,
) -> Result<(), AllocError>
    requires { own < packages }
    ensures text { OnOk result (out.new.items ≡ out.old.items
        ++ (texts.recipe packages own draws.old.state).text) }
    ensures state { OnOk result (draws.new.state
        ≡ (texts.recipe packages own draws.old.state).state) }
{
    let versions = 1 + draws.draw(4);
    write_declared(alloc, versions, out)?;
    write_all_dependencies(alloc, packages, own, draws, out)?;
    write_conflict(versions, draws, out)
}
