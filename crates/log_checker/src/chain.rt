//! The check of a chain, by the signs of variables. A clause that is used again is looked at where
//! pivots stood since.
ghost use Rattle.std.specs.Prelude.{◌≡◌, ◌↔◌, ℕ, length, IfOk, OnOk, None, IsTrue};
ghost use Rattle.std.specs.Option.{option_map};
ghost use Rattle.proof_log.specs.Resolution.{IdsIn};
ghost use Rattle.clause_store.specs.Lits.{var_of, IsClause};
ghost use Rattle.log_checker.specs.Steps.{chain_why, is_bit_value};
ghost use Rattle.log_checker.specs.Signs.{sign_of, opposed, clashes, only_one, overlay, strip};
ghost use Rattle.log_checker.specs.Uses.{is_other, only_pivot, IsEnough, IsResolved, IsKeptOf};

use crate::known::{KnownList, lits_of};
use crate::signs::Signs;
use crate::step::Why;
use crate::uses::{Uses, literals_of};
use clause_store::Lit;
use std::alloc::AllocError;

/// How many literals are looked at in the time in which one is looked for, where the signs are in
/// the row.
const SEARCH: usize = 8;

/// Whether a literal's variable has the opposite sign.
fn is_opposed(signs: &Signs, lit: Lit) -> bool
    ensures { result ≡ opposed (sign_of signs.now) lit }
{
    match signs.get(lit.var.0) {
        Some(sign) => sign == !lit.positive,
        None => false,
    }
}

/// Whether a literal's variable has its sign.
fn is_met(signs: &Signs, lit: Lit) -> bool
    ensures { result ≡ is_bit_value (sign_of signs.now (var_of lit)) lit.positive }
{
    match signs.get(lit.var.0) {
        Some(sign) => sign == lit.positive,
        None => false,
    }
}

/// Whether another variable is the pivot already.
fn is_other(pivot: Option<Lit>, lit: Lit) -> bool
    ensures { result ≡ is_other pivot lit }
{
    match pivot {
        Some(pivot) => pivot.var.0 != lit.var.0,
        None => false,
    }
}

/// The only literal of a clause whose variable has the opposite sign; it may stand there twice.
fn find_pivot(signs: &Signs, lits: &[Lit]) -> Result<Lit, Why>
    ensures { result ≡ only_pivot (sign_of signs.now) None lits.now }
{
    let mut pivot = None;
    for lit in lits {
        if is_opposed(signs, *lit) {
            if is_other(pivot, *lit) {
                return Err(Why::TwoPivots);
            }
            pivot = Some(*lit);
        }
    }
    pivot.ok_or(Why::NoPivot)
}

/// Gives the variables of a clause its signs.
fn put_all(signs: &mut Signs, lits: &[Lit]) -> Result<(), AllocError>
    ensures { OnOk result ((x : ℕ)
        → sign_of signs.new x ≡ overlay lits.now (sign_of signs.old) x) }
{
    for lit in lits {
        signs.put(lit.var.0, lit.positive)?;
    }
    Ok(())
}

/// Whether each sign is that of a literal of the clause.
fn are_within(signs: &mut Signs, lits: &[Lit]) -> bool
    ensures { IsTrue result ↔ ((x : ℕ) → strip lits.now (sign_of signs.old) x ≡ None) }
{
    for lit in lits {
        if is_met(signs, *lit) {
            signs.remove(lit.var.0);
        }
    }
    signs.is_empty()
}

/// Resolves with a clause of which it is enough to look at some literals, and gives the pivot.
fn resolve(signs: &mut Signs, _lits: &[Lit], parts: &[Lit]) -> Result<Result<Lit, Why>, AllocError>
    requires in_order { IsClause _lits.now }
    requires enough { IsEnough (sign_of signs.old) _lits.now parts.now }
    ensures pivot { IfOk result (λ pivot. pivot ≡ only_one (clashes (sign_of signs.old) _lits.now)) }
    ensures signs { IfOk result (λ pivot. IfOk pivot (λ p. IsResolved (sign_of signs.old) (sign_of signs.new)
        _lits.now p)) }
{
    match find_pivot(signs, parts) {
        Ok(pivot) => {
            put_all(signs, parts)?;
            signs.remove(pivot.var.0);
            Ok(Ok(pivot))
        }
        Err(why) => Ok(Err(why)),
    }
}

/// How many literals of a clause are looked for at most in the time in which all are looked at.
fn most_searches(signs: &Signs, lits: &[Lit]) -> usize {
    match lits.last() {
        Some(last) => {
            if signs.is_in_row(last.var.0) {
                lits.len() / SEARCH
            } else {
                lits.len()
            }
        }
        None => 0,
    }
}

/// Resolves with a known clause, and gives the pivot.
fn resolve_with(
    signs: &mut Signs,
    uses: &Uses,
    id: u64,
    lits: &[Lit],
) -> Result<Result<Lit, Why>, AllocError>
    requires in_order { IsClause lits.now }
    requires kept { IsKeptOf uses.now (sign_of signs.old) id lits.now }
    ensures pivot { IfOk result (λ pivot. pivot ≡ only_one (clashes (sign_of signs.old) lits.now)) }
    ensures signs { IfOk result (λ pivot. IfOk pivot (λ p. IsResolved (sign_of signs.old) (sign_of signs.new)
        lits.now p)) }
{
    match uses.since(id, lits.len(), most_searches(signs, lits)) {
        Some(vars) => {
            let parts = literals_of(signs.alloc(), lits, vars)?;
            resolve(signs, lits, parts.as_slice())
        }
        None => resolve(signs, lits, lits),
    }
}

/// What is wrong with a chain of known ids. Whatever signs there are, they are lost.
pub fn check_chain(
    signs: &mut Signs,
    known: &KnownList,
    chain: &[u64],
    stated: &[Lit],
) -> Result<Option<Why>, AllocError>
    requires { IdsIn (length known.now) chain.now }
    ensures { IfOk result (λ why. why ≡ chain_why known.now chain.now stated.now) }
{
    let Some((first, rest)) = chain.split_first() else {
        return Ok(Some(Why::NotContained));
    };
    let mut uses = Uses::new(signs.alloc());
    signs.clear();
    put_all(signs, lits_of(known, *first))?;
    for id in rest {
        let lits = lits_of(known, *id);
        match resolve_with(signs, &uses, *id, lits)? {
            Ok(pivot) => uses.note(*id, lits.len(), pivot)?,
            Err(why) => return Ok(Some(why)),
        }
    }
    if are_within(signs, stated) {
        Ok(None)
    } else {
        Ok(Some(Why::NotContained))
    }
}
