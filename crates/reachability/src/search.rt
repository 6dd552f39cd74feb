// Which places are reached from one.
ghost use Rattle.std.specs.Prelude.{◌≡◌, ℕ, ◌+◌, ◌^◌, ◌<◌, ◌≤◌, length, All, IfOk, OnOk};
ghost use Rattle.reachability.specs.Places.{AreWithin, AreHeads, IsMarked, MarksReached};
ghost use Rattle.reachability.specs.Searches.{Visits, MarksRow};

use crate::bits::Bits;
use plain_data::List;
use std::alloc::{AllocError, Global};

/// For each place those that the arcs from it lead to.
pub fn heads_of(
    alloc: Global,
    places: usize,
    arcs: &[(usize, usize)],
) -> Result<Vec<List<usize>>, AllocError>
    requires { All (λ arc. (arc.0 < places) × (arc.1 < places)) arcs.now }
    ensures arcs { IfOk result (λ heads. AreHeads places arcs.now heads.items) }
    ensures within { IfOk result (λ heads. AreWithin heads.items) }
{
    let mut heads = Vec::new(alloc);
    for _ in 0..places {
        heads.push(List::new(alloc))?;
    }
    for arc in arcs {
        let from = &mut heads[arc.0];
        from.push(arc.1)?;
    }
    Ok(heads)
}

/// A mark for each place: whether a path of one or more arcs leads to it from this one.
///
/// `heads` has for each place those that its arcs lead to. Follows each arc once at most.
pub fn reached(alloc: Global, heads: &[List<usize>], from: usize) -> Result<Bits, AllocError>
    requires within { AreWithin heads.now }
    requires place { from < length heads.now }
    ensures { IfOk result (λ marks. MarksReached heads.now from marks) }
{
    let mut marks = Bits::new(alloc, heads.len())?;
    search(alloc, heads, from, 0, &mut marks)?;
    Ok(marks)
}

/// Marks, from `base` on, the places that paths lead to from this one.
pub(crate) fn search(
    alloc: Global,
    heads: &[List<usize>],
    from: usize,
    base: usize,
    marks: &mut Bits,
) -> Result<(), AllocError>
    requires within { AreWithin heads.now }
    requires place { from < length heads.now }
    requires room { base + length heads.now ≤ length marks.old }
    requires fits { length marks.old < 2 ^ 64 }
    requires fresh { (q : ℕ) → q < length heads.now → IsMarked marks.old (base + q) → ⊥ }
    ensures { OnOk result (MarksRow heads.now from base marks.old marks.new) }
{
    let mut waiting = Vec::new(alloc);
    waiting.push(from)?;
    while let Some(place) = waiting.pop() {
        visit(heads[place].as_slice(), base, marks, &mut waiting)?;
    }
    Ok(())
}

// Marks these places, and lets those wait that had no mark.
fn visit(
    places: &[usize],
    base: usize,
    marks: &mut Bits,
    waiting: &mut Vec<usize>,
) -> Result<(), AllocError>
    requires within { All (λ q. base + q < length marks.old) places.now }
    requires fits { length marks.old < 2 ^ 64 }
    ensures { OnOk result (Visits base places.now marks.old marks.new waiting.old.items
        waiting.new.items) }
{
    for place in places {
        let mark = base + *place;
        if !marks.get(mark) {
            marks.set(mark);
            waiting.push(*place)?;
        }
    }
    Ok(())
}
