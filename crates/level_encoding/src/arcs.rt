//! The arcs as pairs of numbers, and which number reaches which over them.
ghost use Rattle.std.specs.Prelude.{◌≡◌, IfOk};
ghost use Rattle.level_encoding.specs.Input.{IsRight, possible};
ghost use Rattle.level_encoding.specs.Plan.{IsReached};

use crate::input::LevelInput;
use reachability::PathTable;
use std::alloc::{AllocError, Global};

/// Which number reaches which.
pub(crate) fn table_of(alloc: Global, input: &LevelInput) -> Result<PathTable, AllocError>
    requires { IsRight input.now }
    ensures { IfOk result (λ table. IsReached input.now table) }
{
    let pairs = pairs(alloc, input)?;
    let table = PathTable::new(alloc, input.size(), pairs.as_slice())?;
    Ok(table)
}

// The ends of the arcs.
#[tactic(auto, unfolding(crate::specs::Input::possible))]
fn pairs(alloc: Global, input: &LevelInput) -> Result<Vec<(usize, usize)>, AllocError>
    ensures { IfOk result (λ pairs. pairs.items ≡ possible input.now) }
{
    let mut pairs = Vec::new(alloc);
    for arc in input.arcs() {
        pairs.push((arc.parent as usize, arc.child as usize))?;
    }
    Ok(pairs)
}
