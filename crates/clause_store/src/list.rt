//! A growing list of labelled clauses.
ghost use Rattle.std.specs.Prelude.{◌≡◌, ◌+◌, ◌^◌, ◌<◌, ◌≤◌, [], ◌∷◌, ◌++◌, Some, None, length, IfOk, OnOk, OnErr, IfSome, IfNone};
ghost use Rattle.std.specs.Option.{option_map};
ghost use Rattle.clause_store.specs.Lits.{AllBelow, IsClause, clause_of};
ghost use Rattle.clause_store.specs.Clauses.{with_var, with_clause, with_structure, clauses_of, at_id, AllInRange};
ghost use Rattle.clause_store.specs.Kept.{part_of, lits_of_codes};

use crate::clause::{Clause, rises};
use crate::codes::{push_codes, push_within};
use crate::cuts::part;
use crate::demands::{Demanded, label_at, note};
use crate::{Label, Lit, Var};
use std::alloc::{AllocError, Global};
use std::marker::Model;

/// A clause and what it is there for.
#[derive(Debug, Drop)]
pub struct Entry {
    pub clause: Clause,
    pub label: Label,
}

/// Labelled clauses with ids from 1, over the variables made so far.
///
/// It only grows: `new_var` and `add` come in any order, and no clause is taken back or changed.
/// A clause takes eight bytes, and eight for each literal.
#[derive(Debug, Drop)]
pub struct ClauseList {
    // The literals as numbers, clause after clause in order of ids.
    codes: Vec<u64>,
    // Where the literals of each clause end.
    ends: Vec<usize>,
    // The clauses that are not of the structure, in the same order.
    demands: Vec<Demanded>,
    // One element for each variable: places in a kept list never overflow.
    made: Vec<bool>,
}

impl Model for ClauseList {
    ghost use Rattle.clause_store.specs.Clauses.{Clauses};
    ghost use Rattle.clause_store.specs.Kept.{entries_of, IsKept};
    ghost use Rattle.std.specs.Prelude.{vec_len};

    ghost Value = { Clauses };

    ghost view = { λ a. record { entries = entries_of a.demands.items a.codes.items a.ends.items; vars = vec_len a.made } };

    ghost invariant = { λ a. IsKept (vec_len a.made) a.demands.items a.codes.items a.ends.items };
}

impl ClauseList {
    /// No clause and no variable.
    pub fn new(alloc: Global) -> ClauseList
        ensures { result ≡ record { entries = []; vars = 0 } }
    {
        ClauseList {
            codes: Vec::new(alloc),
            ends: Vec::new(alloc),
            demands: Vec::new(alloc),
            made: Vec::new(alloc),
        }
    }

    /// One more variable. After an error the list is as it was.
    pub fn new_var(&mut self) -> Result<Var, AllocError>
        ensures var { IfOk result (λ var. var.0 ≡ self.old.vars) }
        ensures ok { OnOk result (self.new ≡ with_var self.old) }
        ensures err { OnErr result (self.new ≡ self.old) }
    {
        let var = Var(self.made.len() as u64);
        self.made.push(true)?;
        Ok(var)
    }

    /// One more clause over the variables made so far; its id is the new length. After an error
    /// the list is as it was.
    pub fn add(&mut self, clause: Clause, label: Label) -> Result<u64, AllocError>
        requires { AllBelow self.old.vars clause }
        ensures id { IfOk result (λ id. id ≡ length self.new.entries) }
        ensures ok { OnOk result (self.new ≡ with_clause self.old clause label) }
        ensures err { OnErr result (self.new ≡ self.old) }
    {
        let lits = clause.lits();
        // What may fail comes first.
        self.codes.reserve(lits.len())?;
        self.ends.reserve(1)?;
        note(&mut self.demands, self.ends.len(), label)?;
        push_codes(&mut self.codes, lits);
        let end = self.codes.len();
        push_within(&mut self.ends, end);
        Ok(self.ends.len() as u64)
    }

    /// One more clause of the structure, that of a head and these literals, where there is one.
    /// After an error the list is as it was.
    ///
    /// No `Clause` is made where the variables rise and the head's is the last.
    pub fn add_headed(&mut self, alloc: Global, head: Lit, lits: &[Lit]) -> Result<(), AllocError>
        requires { AllBelow self.old.vars (head ∷ lits.now) }
        ensures ok { OnOk result (self.new
            ≡ with_structure self.old (clause_of (head ∷ lits.now))) }
        ensures err { OnErr result (self.new ≡ self.old) }
    {
        if rises(lits, head) {
            return self.add_rising(head, lits);
        }
        if let Some(clause) = Clause::headed(alloc, head, lits)? {
            self.add(clause, Label::Structure)?;
        }
        Ok(())
    }

    // One more clause of the structure: these literals and a last one, in order of variables.
    fn add_rising(&mut self, last: Lit, lits: &[Lit]) -> Result<(), AllocError>
        requires below { AllBelow self.old.vars (last ∷ lits.now) }
        requires in_order { IsClause (lits.now ++ last ∷ []) }
        ensures ok { OnOk result (self.new
            ≡ with_clause self.old (lits.now ++ last ∷ []) Label.Structure) }
        ensures err { OnErr result (self.new ≡ self.old) }
    {
        // What may fail comes first.
        self.codes.reserve(lits.len() + 1)?;
        self.ends.reserve(1)?;
        push_codes(&mut self.codes, lits);
        push_codes(&mut self.codes, &[last]);
        let end = self.codes.len();
        push_within(&mut self.ends, end);
        Ok(())
    }

    /// How many clauses there are: the last id.
    pub fn len(&self) -> u64
        ensures { result ≡ length self.now.entries }
    {
        self.ends.len() as u64
    }

    /// How many variables there are: those below it. Clauses are over these alone.
    pub fn vars(&self) -> u64
        ensures value { result ≡ self.now.vars }
        ensures small { result < 2 ^ 63 }
        ensures in_range { AllInRange self.now.vars self.now.entries }
    {
        self.made.len() as u64
    }

    /// A copy of the clause with this id: None where the id is 0 or above `len`.
    pub fn get(&self, alloc: Global, id: u64) -> Result<Option<Clause>, AllocError>
        ensures { IfOk result (λ clause. clause ≡ at_id (clauses_of self.now.entries) id) }
    {
        match self.codes(id) {
            Some(codes) => Ok(Some(Clause::of_codes(alloc, codes)?)),
            None => Ok(None),
        }
    }

    /// The label of the clause with this id: None where the id is 0 or above `len`.
    pub fn label(&self, id: u64) -> Option<Label>
        ensures { result ≡ option_map (λ e. e.label) (at_id self.now.entries id) }
    {
        match self.place(id) {
            Some(place) => Some(label_at(self.demands.as_slice(), place)),
            None => None,
        }
    }

    /// A copy of the clause with this id, and its label: None where the id is 0 or above `len`.
    pub fn entry(&self, alloc: Global, id: u64) -> Result<Option<Entry>, AllocError>
        ensures { IfOk result (λ entry. entry ≡ at_id self.now.entries id) }
    {
        let Some(label) = self.label(id) else {
            return Ok(None);
        };
        match self.get(alloc, id)? {
            Some(clause) => Ok(Some(Entry { clause, label })),
            None => Ok(None),
        }
    }

    // The literals of the clause with this id.
    fn codes(&self, id: u64) -> Option<&[u64]>
        ensures some { IfSome result (λ codes. at_id (clauses_of self.now.entries) id
            ≡ Some (lits_of_codes codes.now)) }
        ensures in_order { IfSome result (λ codes. IsClause (lits_of_codes codes.now)) }
        ensures none { IfNone result (at_id (clauses_of self.now.entries) id ≡ None) }
    {
        match self.place(id) {
            Some(place) => Some(part(self.codes.as_slice(), self.ends.as_slice(), place)),
            None => None,
        }
    }

    // The place of the clause with this id.
    fn place(&self, id: u64) -> Option<usize>
        ensures some { IfSome result (λ place. (id ≡ place + 1)
            × (place < length self.now.entries)) }
        ensures none { IfNone result (at_id self.now.entries id ≡ None) }
    {
        if id == 0 {
            return None;
        }
        if id > self.len() {
            return None;
        }
        Some(id as usize - 1)
    }
}
