//! Gates that were made, by their literals.
ghost use Rattle.std.specs.Prelude.{◌≡◌, ℕ, ◌<◌, ◌∷◌, ◌++◌, ◌^◌, [], None, IfOk, OnOk, OnErr};
ghost use Rattle.clause_store.specs.Lits.{AllBelow, var_of};
ghost use Rattle.clause_store.specs.Kept.{code_of, lits_of_codes};
ghost use Rattle.clause_circuits.specs.Growth.{Extends};
ghost use Rattle.clause_formulas.specs.Gated.{gate_of, gated, GatesBelow, Keeps};
ghost use Rattle.clause_formulas.specs.Built.{or_on, or_in};

use clause_circuits::define_any;
use clause_store::{ClauseList, Lit};
use indexmap::IndexMap;
use std::alloc::{AllocError, Global};
use std::marker::Model;

/// The gates that were made in a list of clauses, so that none is made twice: each is found by its
/// literals, in constant time on average. Seen as the list of them, each with its literals, in the
/// order in which they were made.
///
/// It goes with that list alone. A gate takes some 100 bytes, and eight for each literal.
#[derive(Drop)]
pub struct Gates {
    // The literals as numbers, and the literal that is true where some of them is.
    table: IndexMap<Vec<u64>, Lit>,
}

impl Model for Gates {
    ghost use Rattle.std.specs.Prelude.{List};
    ghost use Rattle.clause_formulas.specs.Gated.{Gate};
    ghost use Rattle.clause_formulas.specs.Kept.{gates_of};

    ghost Value = { List Gate };

    ghost view = { λ g. gates_of g.table.entries };
}

impl Gates {
    /// No gate yet.
    pub fn new(alloc: Global) -> Gates
        ensures value { result ≡ [] }
        ensures below { (n : ℕ) → GatesBelow n result }
    {
        Gates {
            table: IndexMap::new(alloc),
        }
    }

    // The first gate with these literals.
    fn find(&self, codes: &[u64]) -> Option<Lit>
        ensures { result ≡ gate_of self.now (lits_of_codes codes.now) }
    {
        self.table.get(codes).copied()
    }

    // One more gate, with literals that none has. After an error there is none more.
    fn keep(&mut self, codes: Vec<u64>, lit: Lit) -> Result<(), AllocError>
        requires { gate_of self.old (lits_of_codes codes.items) ≡ None }
        ensures ok { OnOk result (self.new ≡ self.old ++ (lits_of_codes codes.items, lit) ∷ []) }
        ensures err { OnErr result (self.new ≡ self.old) }
    {
        self.table.insert(codes, lit)?;
        Ok(())
    }
}

/// A literal that is true exactly where some literal of the list is: that of a gate that was made,
/// or of a new one.
pub(crate) fn or_in(
    alloc: Global,
    clauses: &mut ClauseList,
    gates: &mut Gates,
    lits: &[Lit],
) -> Result<Lit, AllocError>
    requires lits { AllBelow clauses.old.vars lits.now }
    requires gates { GatesBelow clauses.old.vars gates.old }
    ensures built { IfOk result (λ lit. or_in (gated clauses.old gates.old) lits.now ≡ record {
      state =
          gated clauses.new gates.new;
      answer = lit;
    }) }
    ensures keeps { Keeps (gated clauses.old gates.old) (gated clauses.new gates.new) }
{
    let codes = codes_of(alloc, clauses, lits)?;
    if let Some(lit) = gates.find(codes.as_slice()) {
        return Ok(lit);
    }
    let lit = or(alloc, clauses, lits)?;
    gates.keep(codes, lit)?;
    Ok(lit)
}

/// The literal of a new gate that is true exactly where some literal of the list is.
pub(crate) fn or(alloc: Global, clauses: &mut ClauseList, lits: &[Lit]) -> Result<Lit, AllocError>
    requires { AllBelow clauses.old.vars lits.now }
    ensures built { IfOk result (λ lit. or_on clauses.old lits.now ≡ record {
      list =
          clauses.new;
      answer = lit;
    }) }
    ensures extends { Extends clauses.old clauses.new }
{
    let lit = define_any(alloc, clauses, lits)?;
    Ok(lit)
}

// The literals as numbers.
fn codes_of(alloc: Global, clauses: &ClauseList, lits: &[Lit]) -> Result<Vec<u64>, AllocError>
    requires { AllBelow clauses.now.vars lits.now }
    ensures { IfOk result (λ codes. lits_of_codes codes.items ≡ lits.now) }
{
    let _below = clauses.vars();
    let mut codes = Vec::with_capacity(alloc, lits.len())?;
    for lit in lits {
        codes.push(code_of(*lit))?;
    }
    Ok(codes)
}

// Twice the variable, and one more where the literal is true with it.
fn code_of(lit: Lit) -> u64
    requires { var_of lit < 2 ^ 63 }
    ensures { result ≡ code_of lit }
{
    lit.var.0 * 2 + u64::from(lit.positive)
}
