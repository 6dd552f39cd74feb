//! The table of a problem.
ghost use Rattle.std.specs.Prelude.{◌≡◌, ◌+◌, IfOk, OnOk};
ghost use Rattle.table_plan.specs.Plans.{plan_of};
ghost use Rattle.table_plan.specs.Numbers.{table_from, variables_of};

use crate::plan::plan_of;
use literal_table::LiteralTable;
use possible_closure::Closure;
use problem::Problem;
use std::alloc::{AllocError, Global};
use table_plan::table_from;

/// The literals of what may be chosen at the names of a closure, over variables from a number on,
/// the next one that is free.
pub fn table_of(
    alloc: Global,
    problem: &Problem,
    closure: &Closure,
    next: &mut u64,
) -> Result<LiteralTable, AllocError>
    ensures table { IfOk result (λ table. table ≡ table_from next.old
        (plan_of problem.now closure.now)) }
    ensures next { OnOk result (next.new ≡ next.old
        + variables_of (plan_of problem.now closure.now)) }
{
    let _names = closure.names();
    let plan = plan_of(alloc, problem, closure)?;
    let table = table_from(alloc, next, &plan)?;
    Ok(table)
}
