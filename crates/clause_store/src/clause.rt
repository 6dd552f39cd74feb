//! A clause: literals in order of variables, each variable once.
ghost use Rattle.std.specs.Prelude.{◌≡◌, List, [], ◌∷◌, ◌++◌, IfOk, IsTrue, Some, None, false};
ghost use Rattle.clause_store.specs.Lits.{var_of, place_of, with_lit, with_lits, clause_of, IsClause, AllBelow};
ghost use Rattle.clause_store.specs.Kept.{lits_of_codes};

use crate::Lit;
use crate::codes::lit_of_code;
use smallvec::SmallVec;
use std::alloc::{AllocError, Global};
use std::marker::Model;

/// Literals of which one at least is to be true, seen as the list of them.
///
/// Up to four literals stand in place; more take one allocation.
#[derive(Debug, Drop)]
pub struct Clause {
    lits: SmallVec<Lit, 4>,
}

impl Model for Clause {
    ghost use Rattle.std.specs.Prelude.{List};
    ghost use Rattle.clause_store.specs.declared.Lit.{Lit};
    ghost use Rattle.clause_store.specs.Lits.{IsClause};

    ghost Value = { List Lit };

    ghost view = { λ c. c.lits.items };

    ghost invariant = { λ c. IsClause c.lits.items };
}

impl Clause {
    /// The clause of these literals, in whatever order and however often they stand there: None
    /// where a variable stands with both signs, and so one of them is true in any case.
    ///
    /// A literal whose variable is above those before it costs no search; each other one takes a
    /// binary search, and time for moving those behind it.
    pub fn new(alloc: Global, lits: &[Lit]) -> Result<Option<Clause>, AllocError>
        ensures { IfOk result (λ clause. clause ≡ clause_of lits.now) }
    {
        let mut kept = SmallVec::new(alloc);
        if !put_all(&mut kept, lits)? {
            return Ok(None);
        }
        Ok(Some(Clause { lits: kept }))
    }

    /// The clause of a literal and these: None where a variable stands with both signs.
    ///
    /// The head is put in last, so it costs no search where its variable is the newest.
    pub fn headed(alloc: Global, head: Lit, lits: &[Lit]) -> Result<Option<Clause>, AllocError>
        ensures { IfOk result (λ clause. clause ≡ clause_of (head ∷ lits.now)) }
    {
        let mut kept = SmallVec::new(alloc);
        if !put_all(&mut kept, lits)? {
            return Ok(None);
        }
        if !put(&mut kept, head)? {
            return Ok(None);
        }
        Ok(Some(Clause { lits: kept }))
    }

    /// The clause of one literal.
    pub fn single(alloc: Global, lit: Lit) -> Result<Clause, AllocError>
        ensures { IfOk result (λ clause. clause ≡ lit ∷ []) }
    {
        let mut lits = SmallVec::new(alloc);
        lits.push(lit)?;
        Ok(Clause { lits })
    }

    /// A clause of the same literals.
    pub fn duplicate(&self, alloc: Global) -> Result<Clause, AllocError>
        ensures { IfOk result (λ clause. clause ≡ self.now) }
    {
        let lits = SmallVec::from_slice(alloc, self.lits.as_slice())?;
        Ok(Clause { lits })
    }

    /// The clause with these codes.
    pub(crate) fn of_codes(alloc: Global, codes: &[u64]) -> Result<Clause, AllocError>
        requires { IsClause (lits_of_codes codes.now) }
        ensures { IfOk result (λ clause. clause ≡ lits_of_codes codes.now) }
    {
        let lits = decoded(alloc, codes)?;
        Ok(Clause { lits })
    }

    /// The literals, in order of variables.
    pub fn lits(&self) -> &[Lit]
        ensures value { result.now ≡ self.now }
        ensures in_order { IsClause self.now }
    {
        self.lits.as_slice()
    }
}

// The literals with these codes.
fn decoded(alloc: Global, codes: &[u64]) -> Result<SmallVec<Lit, 4>, AllocError>
    ensures { IfOk result (λ lits. lits.items ≡ lits_of_codes codes.now) }
{
    let mut lits = SmallVec::new(alloc);
    for code in codes {
        lits.push(lit_of_code(*code))?;
    }
    Ok(lits)
}

// Puts literals in their places, and says whether no variable of them has both signs.
fn put_all(kept: &mut SmallVec<Lit, 4>, lits: &[Lit]) -> Result<bool, AllocError>
    requires { IsClause kept.old.items }
    ensures fits { IfOk result (λ yes. IsTrue yes
        → with_lits kept.old.items lits.now ≡ Some kept.new.items) }
    ensures in_order { IfOk result (λ yes. IsTrue yes → IsClause kept.new.items) }
    ensures clashes { IfOk result (λ yes. yes ≡ false
        → with_lits kept.old.items lits.now ≡ None) }
{
    for lit in lits {
        if !put(kept, *lit)? {
            return Ok(false);
        }
    }
    Ok(true)
}

/// Whether the variables rise, and the last one's is above them.
pub(crate) fn rises(lits: &[Lit], last: Lit) -> bool
    ensures { IsTrue result → IsClause (lits.now ++ last ∷ []) }
{
    let count = lits.len();
    let mut next = last;
    for i in 0..count {
        let lit = lits[count - (i + 1)];
        if lit.var.0 >= next.var.0 {
            return false;
        }
        next = lit;
    }
    true
}

// Whether all variables are below the literal's: they are where the last one is.
fn ends_below(lits: &[Lit], lit: Lit) -> bool
    requires { IsClause lits.now }
    ensures { IsTrue result → AllBelow (var_of lit) lits.now }
{
    let count = lits.len();
    if count == 0 {
        return true;
    }
    lits[count - 1].var.0 < lit.var.0
}

// The first place whose variable is not below the literal's.
fn find_place(lits: &[Lit], lit: Lit) -> usize
    requires { IsClause lits.now }
    ensures { result ≡ place_of lits.now lit }
{
    lits.partition_point(|other| other.var.0 < lit.var.0)
}

// Puts a literal in its place, and says whether its variable was not there with the other sign.
fn put(lits: &mut SmallVec<Lit, 4>, lit: Lit) -> Result<bool, AllocError>
    requires { IsClause lits.old.items }
    ensures fits { IfOk result (λ yes. IsTrue yes
        → with_lit lits.old.items lit ≡ Some lits.new.items) }
    ensures clashes { IfOk result (λ yes. yes ≡ false → with_lit lits.old.items lit ≡ None) }
{
    if ends_below(lits.as_slice(), lit) {
        lits.push(lit)?;
        return Ok(true);
    }
    let at = find_place(lits.as_slice(), lit);
    if at < lits.len() {
        let other = lits[at];
        if other.var.0 == lit.var.0 {
            return Ok(other.positive == lit.positive);
        }
    }
    lits.insert(at, lit)?;
    Ok(true)
}
