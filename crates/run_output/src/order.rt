//! What is said of the order in which a graph can be built.

ghost use Rattle.std.specs.Prelude.{◌≡◌, ◌++◌, ◌∷◌, IfOk, OnOk};
ghost use Rattle.graph_core.specs.OfReachability.Paths.{IsAcyclic};
ghost use Rattle.graph_core.specs.Paths.{JoinedIn};
ghost use Rattle.run_task.specs.declared.task.Task.TheVariants as tasks;
ghost use Rattle.run_output.specs.Evidence.{evidence};
ghost use Rattle.run_output.specs.Report.{chain_line, names_text, plan_text, wave_line, waves_text};
ghost use Rattle.run_output.specs.Told.{Tells};

use crate::answer::Outcome;
use crate::said::Said;
use graph_core::Graph;
use install_plan::{Plan, waves};
use plain_data::{List, Word};
use std::alloc::{AllocError, Global};

/// A name after a space.
fn write_name(name: &Word, out: &mut Vec<u8>) -> Result<(), AllocError>
    ensures { OnOk result (out.new.items ≡ out.old.items ++ 32 ∷ name.now) }
{
    out.extend_from_slice(b" ")?;
    out.extend_from_slice(name.as_str().as_bytes())
}

/// Names, each after a space.
fn write_names(names: &[Word], out: &mut Vec<u8>) -> Result<(), AllocError>
    ensures { OnOk result (out.new.items ≡ out.old.items ++ names_text names.now) }
{
    for name in names {
        write_name(name, out)?;
    }
    Ok(())
}

/// The line of a wave, which has this number.
#[tactic(auto, unfolding(crate::specs::Report::wave_line))]
fn write_wave(
    alloc: Global,
    number: usize,
    names: &[Word],
    out: &mut Vec<u8>,
) -> Result<(), AllocError>
    ensures { OnOk result (out.new.items ≡ out.old.items ++ wave_line number names.now) }
{
    let front = format!(in alloc; "wave {number}")?;
    out.extend_from_slice(front.as_bytes())?;
    write_names(names, out)?;
    out.extend_from_slice(b"\n")
}

/// The lines of all waves.
fn write_waves(alloc: Global, waves: &[List<Word>], out: &mut Vec<u8>) -> Result<(), AllocError>
    ensures { OnOk result (out.new.items ≡ out.old.items ++ waves_text 1 waves.now) }
{
    for (place, wave) in waves.iter().enumerate() {
        write_wave(alloc, place + 1, wave.as_slice(), out)?;
    }
    Ok(())
}

#[tactic(auto, unfolding(crate::specs::Report::chain_line))]
fn write_chain(names: &[Word], out: &mut Vec<u8>) -> Result<(), AllocError>
    ensures { OnOk result (out.new.items ≡ out.old.items ++ chain_line names.now) }
{
    out.extend_from_slice(b"chain")?;
    write_names(names, out)?;
    out.extend_from_slice(b"\n")
}

fn plan_text(alloc: Global, plan: &Plan) -> Result<Vec<u8>, AllocError>
    ensures { IfOk result (λ text. text.items ≡ plan_text plan.now.waves plan.now.chain) }
{
    let mut text = Vec::new(alloc);
    write_waves(alloc, plan.waves.as_slice(), &mut text)?;
    write_chain(plan.chain.as_slice(), &mut text)?;
    Ok(text)
}

/// Of the order in which a graph without a cycle can be built.
pub(crate) fn of_graph(alloc: Global, graph: &Graph) -> Result<Said, AllocError>
    requires { IsAcyclic (JoinedIn graph.now) }
    ensures { IfOk result (λ said. Tells evidence (tasks.Plan graph.now) said.outcome
        said.text.items) }
{
    let plan = waves(alloc, graph)?;
    Ok(Said {
        text: plan_text(alloc, &plan)?,
        outcome: Outcome::Solved,
    })
}
