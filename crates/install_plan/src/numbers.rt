// Numbers of places: each has one more than the greatest among those that its arcs lead to.
ghost use Rattle.std.specs.Prelude.{◌≡◌, ◌⊎◌, ◌↔◌, ℕ, ◌+◌, ◌<◌, ◌≤◌, ◌∷◌, ◌++◌, [], length, All, Contains, IfOk, OnOk, replicate};
ghost use Rattle.graph_core.specs.OfReachability.Places.{AreWithin, LeadsTo};
ghost use Rattle.install_plan.specs.Numbers.{HaveHeights, AreNumbers, AreRight, IsWaiter, Waits, Keeps};
ghost use Rattle.install_plan.specs.Numbers.{number_at, heads_at, missing, waiters_at};

use plain_data::List;
use std::alloc::{AllocError, Global};
use std::mem;

/// A place that waits for the number of one that its arcs lead to.
#[derive(Clone, Copy, Debug)]
pub(crate) struct Waiter {
    pub place: usize,
    /// Which of the arcs leads there: all that the earlier ones lead to has numbers.
    pub next: usize,
}

/// The number of each place: 1 where it has no arc, and else one more than the greatest among those that its arcs lead
/// to. `heads` has these for each place.
///
/// A place waits for one of them at a time, so each arc is passed once.
pub(crate) fn numbers_of(alloc: Global, heads: &[List<usize>]) -> Result<Vec<usize>, AllocError>
    requires within { AreWithin heads.now }
    requires heights { HaveHeights heads.now }
    ensures { IfOk result (λ numbers. AreNumbers heads.now numbers.items) }
{
    let mut numbers = vec![in alloc; 0; heads.len()]?;
    let mut waiting = no_waiters(alloc, heads.len())?;
    let mut settled = Vec::new(alloc);
    for place in 0..heads.len() {
        let waiter = Waiter { place, next: 0 };
        settle(heads, waiter, &mut numbers, &mut waiting, &mut settled)?;
    }
    while let Some(place) = settled.pop() {
        wake(
            alloc,
            heads,
            place,
            &mut numbers,
            &mut waiting,
            &mut settled,
        )?;
    }
    Ok(numbers)
}

fn no_waiters(alloc: Global, places: usize) -> Result<Vec<List<Waiter>>, AllocError>
    ensures { IfOk result (λ waiting. waiting.items ≡ replicate places []) }
{
    let mut waiting = Vec::new(alloc);
    for _ in 0..places {
        waiting.push(List::new(alloc))?;
    }
    Ok(waiting)
}

/// Gives a place its number where all that its arcs lead to has one; else it waits for the first that has none.
fn settle(
    heads: &[List<usize>],
    waiter: Waiter,
    numbers: &mut Vec<usize>,
    waiting: &mut Vec<List<Waiter>>,
    settled: &mut Vec<usize>,
) -> Result<(), AllocError>
    requires within { AreWithin heads.now }
    requires right { AreRight heads.now numbers.old.items waiting.old.items settled.old.items }
    requires waiter { IsWaiter heads.now numbers.old.items waiter }
    ensures right { OnOk result (AreRight heads.now numbers.new.items waiting.new.items
        settled.new.items) }
    ensures kept { OnOk result (Keeps numbers.old.items numbers.new.items) }
    ensures work { OnOk result (length settled.new.items + missing numbers.new.items
        ≡ length settled.old.items + missing numbers.old.items) }
    ensures waits { OnOk result ((p : ℕ) → number_at numbers.new.items p ≡ 0
        → (p ≡ waiter.place)
        ⊎ Waits heads.now numbers.old.items waiting.old.items settled.old.items p
        → Waits heads.now numbers.new.items waiting.new.items settled.new.items p) }
{
    let place = waiter.place;
    if numbers[place] > 0 {
        return Ok(());
    }
    let children = heads[place].as_slice();
    let next = first_missing(children, waiter.next, numbers.as_slice());
    if next < children.len() {
        let list = &mut waiting[children[next]];
        list.push(Waiter { place, next })?;
        Ok(())
    } else {
        numbers[place] = greatest(children, numbers.as_slice()) + 1;
        settled.push(place)?;
        Ok(())
    }
}

/// Lets all that wait for a place look further: it has its number.
fn wake(
    alloc: Global,
    heads: &[List<usize>],
    place: usize,
    numbers: &mut Vec<usize>,
    waiting: &mut Vec<List<Waiter>>,
    settled: &mut Vec<usize>,
) -> Result<(), AllocError>
    requires within { AreWithin heads.now }
    requires place { place < length heads.now }
    requires right { AreRight heads.now numbers.old.items waiting.old.items settled.old.items }
    ensures right { OnOk result (AreRight heads.now numbers.new.items waiting.new.items
        settled.new.items) }
    ensures kept { OnOk result (Keeps numbers.old.items numbers.new.items) }
    ensures work { OnOk result (length settled.new.items + missing numbers.new.items
        ≡ length settled.old.items + missing numbers.old.items) }
    ensures waits { OnOk result ((p : ℕ) → number_at numbers.new.items p ≡ 0
        → Waits heads.now numbers.old.items waiting.old.items (settled.old.items ++ place ∷ []) p
        → Waits heads.now numbers.new.items waiting.new.items settled.new.items p) }
{
    let waiters = mem::replace(&mut waiting[place], List::new(alloc));
    for waiter in waiters.as_slice() {
        settle(heads, *waiter, numbers, waiting, settled)?;
    }
    Ok(())
}

/// The first of these places, from one on, that has no number; their count where all have one.
fn first_missing(places: &[usize], from: usize, numbers: &[usize]) -> usize
    requires from { from ≤ length places.now }
    requires within { All (λ q. q < length numbers.now) places.now }
    ensures bounds { result ≤ length places.now }
    ensures passed { (k : ℕ) → from ≤ k → k < result
        → 1 ≤ number_at numbers.now (number_at places.now k) }
    ensures stop { result < length places.now
        → number_at numbers.now (number_at places.now result) ≡ 0 }
{
    for i in from..places.len() {
        if numbers[places[i]] == 0 {
            return i;
        }
    }
    places.len()
}

/// The greatest number of these places; 0 where there is none.
fn greatest(places: &[usize], numbers: &[usize]) -> usize
    requires { All (λ q. q < length numbers.now) places.now }
    ensures above { All (λ q. number_at numbers.now q ≤ result) places.now }
    ensures there { (result ≡ 0) ⊎ ((q : ℕ) × Contains places.now q
        × (number_at numbers.now q ≡ result)) }
{
    let mut greatest = 0;
    for place in places {
        if numbers[*place] > greatest {
            greatest = numbers[*place];
        }
    }
    greatest
}
