//! Which clauses a chain used, and what changed since.
ghost use Rattle.std.specs.Prelude.{◌≡◌, ◌==◌, [], drop, slice_get, IfOk, IfSome, OnOk};
ghost use Rattle.clause_store.specs.Lits.{var_of, IsClause};
ghost use Rattle.log_checker.specs.Uses.{lit_at, lits_at, IsSince, IsStep, IsNoted};

use clause_store::Lit;
use std::alloc::{AllocError, Global};
use std::collections::BTreeMap;
use std::marker::Model;

/// How many literals a clause has, at least, whose uses are noted.
const LONG: usize = 32;

/// The steps of a chain so far.
///
/// A step leaves each literal of its clause with its sign, but for the pivot; and only a later
/// pivot takes a sign. So where a clause is used again, its literals have their signs, but for the
/// pivots since. A chain of n ids over m clauses of k literals each looks so at n * min(m, k) of
/// them, and not at n * k.
#[derive(Drop)]
pub struct Uses {
    // The variable of each step's pivot.
    pivots: Vec<u64>,
    // Of long clauses, how many steps there were before the last use.
    last: BTreeMap<u64, usize>,
}

impl Model for Uses {
    ghost use Rattle.log_checker.specs.Uses.{Used};

    ghost Value = { Used };

    ghost view = { λ u. record { pivots = u.pivots.items; last = u.last.entries } };
}

impl Uses {
    /// No step yet.
    pub fn new(alloc: Global) -> Uses
        ensures { result ≡ record { pivots = []; last = [] } }
    {
        Uses {
            pivots: Vec::new(alloc),
            last: BTreeMap::new(alloc),
        }
    }

    /// The pivots since a clause of so many literals was last used, where that is noted and they
    /// are at most so many.
    pub fn since(&self, id: u64, count: usize, most: usize) -> Option<&[u64]>
        ensures { IfSome result (λ vars. IsSince self.now id vars.now) }
    {
        if count < LONG {
            return None;
        }
        match self.last.get(&id) {
            Some(steps) => few_from(self.pivots.as_slice(), *steps, most),
            None => None,
        }
    }

    /// Notes a step with a clause of so many literals.
    pub fn note(&mut self, id: u64, count: usize, pivot: Lit) -> Result<(), AllocError>
        ensures { OnOk result (IsStep self.old self.new id (var_of pivot)) }
    {
        let steps = self.pivots.len();
        note_use(&mut self.last, id, count, steps)?;
        self.pivots.push(pivot.var.0)?;
        Ok(())
    }
}

/// The items from a place on, where they are at most so many.
fn few_from(items: &[u64], place: usize, most: usize) -> Option<&[u64]>
    ensures { IfSome result (λ rest. rest.now ≡ drop place items.now) }
{
    match items.get(place..) {
        Some(rest) => { if rest.len() <= most { Some(rest) } else { None } }
        None => None,
    }
}

/// Notes the use of a clause, if it is long.
fn note_use(
    last: &mut BTreeMap<u64, usize>,
    id: u64,
    count: usize,
    steps: usize,
) -> Result<(), AllocError>
    ensures { OnOk result (IsNoted last.old.entries last.new.entries id steps) }
{
    if count >= LONG {
        last.insert(id, steps)?;
    }
    Ok(())
}

fn lit_in(lits: &[Lit], place: usize) -> Option<Lit>
    ensures { result ≡ slice_get lits.now place }
{
    lits.get(place).copied()
}

fn is_of(lit: Lit, var: u64) -> bool
    ensures { result ≡ (var_of lit == var) }
{
    lit.var.0 == var
}

/// The literal of a variable in a clause.
fn literal_of(lits: &[Lit], var: u64) -> Option<Lit>
    requires { IsClause lits.now }
    ensures { result ≡ lit_at lits.now var }
{
    let place = lits.partition_point(|other| other.var.0 < var);
    match lit_in(lits, place) {
        Some(lit) => { if is_of(lit, var) { Some(lit) } else { None } }
        None => None,
    }
}

/// The literals of variables in a clause, where they stand there.
pub fn literals_of(alloc: Global, lits: &[Lit], vars: &[u64]) -> Result<Vec<Lit>, AllocError>
    requires { IsClause lits.now }
    ensures { IfOk result (λ found. found.items ≡ lits_at lits.now vars.now) }
{
    let mut found = Vec::new(alloc);
    for var in vars {
        if let Some(lit) = literal_of(lits, *var) {
            found.push(lit)?;
        }
    }
    Ok(found)
}
