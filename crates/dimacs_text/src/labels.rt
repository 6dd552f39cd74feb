//! Which clauses are there for which demand.

ghost use Rattle.std.specs.Prelude.{◌≡◌, ◌++◌, ◌∷◌, [], OnOk, IfOk};
ghost use Rattle.std.specs.Option.{option_map};
ghost use Rattle.clause_store.specs.Clauses.{at_id};
ghost use Rattle.run_answers.specs.Texts.{reasons_text};
ghost use Rattle.dimacs_text.specs.Labels as lines;

use crate::signs::write_number;
use clause_store::{ClauseList, Label};
use problem::Problem;
use run_answers::write_reasons;
use std::alloc::{AllocError, Global};

// Each of these that takes `out` appends a text to it, or some of it after an error.

/// The line of one demand.
fn demand_text(alloc: Global, problem: &Problem, demand: u64) -> Result<Vec<u8>, AllocError>
    ensures { IfOk result (λ text. text.items ≡ reasons_text problem.now (demand ∷ [])) }
{
    write_reasons(alloc, problem, &[demand])
}

/// A clause that is there for a demand.
#[tactic(auto, unfolding(crate::specs::Labels::demand_line))]
fn write_demand(
    alloc: Global,
    problem: &Problem,
    id: u64,
    demand: u64,
    out: &mut Vec<u8>,
) -> Result<(), AllocError>
    ensures { OnOk result (out.new.items ≡ out.old.items
        ++ lines.demand_line problem.now id demand) }
{
    out.extend_from_slice(b"c clause ")?;
    write_number(alloc, id, out)?;
    out.extend_from_slice(b" demand ")?;
    write_number(alloc, demand, out)?;
    out.extend_from_slice(b" ")?;
    let text = demand_text(alloc, problem, demand)?;
    out.extend_from_slice(text.as_slice())
}

/// The label of the clause with this id: nothing for the structure.
fn write_label(
    alloc: Global,
    problem: &Problem,
    clauses: &ClauseList,
    id: u64,
    out: &mut Vec<u8>,
) -> Result<(), AllocError>
    ensures { OnOk result (out.new.items ≡ out.old.items ++ lines.label_at problem.now id
        (option_map (λ e. e.label) (at_id clauses.now.entries id))) }
{
    match clauses.label(id) {
        Some(Label::Demand(demand)) => write_demand(alloc, problem, id, demand, out),
        Some(Label::Structure) | None => Ok(()),
    }
}

/// The labels of all clauses, in the order of their ids.
pub(crate) fn write_labels(
    alloc: Global,
    problem: &Problem,
    clauses: &ClauseList,
    out: &mut Vec<u8>,
) -> Result<(), AllocError>
    ensures { OnOk result (out.new.items ≡ out.old.items
        ++ lines.label_lines problem.now 1 clauses.now.entries) }
{
    for place in 0..clauses.len() {
        write_label(alloc, problem, clauses, place + 1, out)?;
    }
    Ok(())
}
