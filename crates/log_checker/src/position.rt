//! Where a checker stands: what it knows, and which rule a line breaks there.
ghost use Rattle.std.specs.Prelude.{◌≡◌, ◌<◌, ◌≤◌, ◌+◌, ◌^◌, [], ◌∷◌, ◌++◌, None, IfOk, OnOk, OnErr, length};
ghost use Rattle.std.specs.Option.{option_map};
ghost use Rattle.clause_store.specs.Clauses.{clauses_of};
ghost use Rattle.proof_log.specs.Known.{AllClauses};
ghost use Rattle.log_checker.specs.Steps.{unless, begun, is_first_line, may_stand_later, next_id, next_bit, has_value, own_line_fault, place_fault, plain_fault, fault, noted, accept};
ghost use Rattle.log_checker.specs.Known.{as_known, rival};
ghost use Rattle.log_checker.specs.Blocks.{Fits, mark_of, back_to};

use crate::inputs::copy_all;
use crate::known::{Known, KnownList, bit_known, rival_known};
use crate::lines::{bit_at, count_settled, derivation_fault, ids_fault, is_last};
use crate::signs::Signs;
use crate::step::Why;
use crate::store::Store;
use clause_store::{ClauseList, Lit};
use proof_log::Line;
use std::alloc::{AllocError, Global};
use std::marker::Model;

/// What the lines so far, which were all accepted, made known.
#[derive(Drop)]
pub struct Position {
    alloc: Global,
    vars: u64,
    inputs: u64,
    bits: Vec<Lit>,
    // The bits of the graph, where a certificate is checked.
    values: Option<Vec<bool>>,
    store: Store,
    // How many lines there were, and how many bits they settled.
    lines: u64,
    settled: u64,
    ended: bool,
}

impl Model for Position {
    ghost use Rattle.std.specs.Prelude.{◌+◌, ◌≤◌, ◌<◌, ◌^◌, length, if◌then◌else◌};
    ghost use Rattle.std.specs.Option.{option_map};
    ghost use Rattle.log_checker.specs.Steps.{CheckerState};

    ghost Value = { CheckerState };

    ghost view = { λ p. record {
      vars = p.vars;
      inputs = p.inputs;
      bits = p.bits.items;
      values = option_map (λ v. v.items) p.values;
      known = p.store;
      lines = p.lines;
      settled = p.settled;
      ended = p.ended;
    } };

    ghost invariant = { λ p. (p.lines ≤ length p.store + (if p.ended then 2 else 1))
        × (p.settled ≤ p.lines) × (length p.store < 2 ^ 63) };
}

/// Which lines there were before a block.
#[derive(Clone, Copy)]
pub struct Mark {
    known: usize,
    lines: u64,
    settled: u64,
    ended: bool,
}

impl Position {
    /// Before the first line.
    pub fn new(
        alloc: Global,
        clauses: &ClauseList,
        bits: &[Lit],
        values: Option<&[bool]>,
    ) -> Result<Position, AllocError>
        ensures start { IfOk result (λ position. position
            ≡ begun clauses.now bits.now (option_map (λ v. v.now) values.entry)) }
        ensures in_order { OnOk result (AllClauses (clauses_of clauses.now.entries)) }
    {
        let store = copy_all(alloc, clauses)?;
        let inputs = store.len() as u64;
        let bits = Vec::from_slice(alloc, bits)?;
        let values = match values {
            Some(values) => Some(Vec::from_slice(alloc, values)?),
            None => None,
        };
        Ok(Position {
            alloc,
            vars: clauses.vars(),
            inputs,
            bits,
            values,
            store,
            lines: 0,
            settled: 0,
            ended: false,
        })
    }

    pub fn known(&self) -> &KnownList
        ensures { result.now ≡ self.now.known }
    {
        self.store.known()
    }

    pub fn bits(&self) -> &[Lit]
        ensures { result.now ≡ self.now.bits }
    {
        self.bits.as_slice()
    }

    /// How many lines there were.
    pub fn lines(&self) -> u64
        ensures value { result ≡ self.now.lines }
        ensures small { self.now.lines + 4 < 2 ^ 64 }
    {
        self.lines
    }

    pub fn has_ended(&self) -> bool
        ensures { result ≡ self.now.ended }
    {
        self.ended
    }

    /// Whether the first line has the numbers of the input.
    fn begins(&self, line: &Line) -> bool
        ensures { result ≡ is_first_line self.now line.now }
    {
        match line {
            Line::Header {
                vars,
                clauses,
                bits,
            } => *vars == self.vars && *clauses == self.inputs && *bits == self.bits.len() as u64,
            _ => false,
        }
    }

    fn is_next_id(&self, id: u64) -> bool
        ensures { result ≡ next_id self.now id }
    {
        id == self.store.known().len() as u64 + 1
    }

    fn is_next_bit(&self, bit: u64) -> bool
        ensures { result ≡ next_bit self.now bit }
    {
        bit == self.settled && bit < self.bits.len() as u64
    }

    /// Whether a later line may stand here.
    fn may_stand(&self, line: &Line) -> bool
        ensures { result ≡ may_stand_later self.now line.now }
    {
        match line {
            Line::Learnt { id, .. } => self.is_next_id(*id),
            Line::Zero { id, bit } => self.values.is_some()
                && self.is_next_id(*id)
                && self.is_next_bit(*bit),
            Line::One { id, bit, .. } => self.values.is_some()
                && self.is_next_id(*id)
                && self.is_next_bit(*bit),
            Line::Unsat { .. } => self.values.is_none(),
            Line::End => self.values.is_some() && self.settled == self.bits.len() as u64,
            _ => false,
        }
    }

    /// Whether the graph's bit has this value.
    fn has_value(&self, bit: u64, value: bool) -> bool
        ensures { result ≡ has_value self.now bit value }
    {
        match &self.values {
            Some(values) => match values.get(bit as usize) {
                Some(known) => *known == value,
                None => false,
            },
            None => false,
        }
    }

    fn place_fault(&self, line: &Line) -> Option<Why>
        ensures { result ≡ place_fault self.now line.now }
    {
        if self.lines == 0 {
            return unless(self.begins(line), Why::WrongCounts);
        }
        if self.ended || !self.may_stand(line) {
            return Some(Why::OutOfOrder);
        }
        ids_fault(self.store.known().len() as u64, line)
    }

    /// The fault of a bit's value or of a learnt clause.
    fn own_fault(&mut self, line: &Line) -> Result<Option<Why>, AllocError>
        ensures value { IfOk result (λ why. why ≡ own_line_fault self.old line.now) }
        ensures same { self.new ≡ self.old }
    {
        match line {
            Line::Learnt { clause, .. } => {
                let found = self.store.has_rival(clause.lits())?;
                Ok(unless(!found, Why::NotNew))
            }
            Line::Zero { bit, .. } => Ok(unless(self.has_value(*bit, false), Why::WrongBit)),
            Line::One { bit, .. } => Ok(unless(self.has_value(*bit, true), Why::WrongBit)),
            _ => Ok(None),
        }
    }

    /// Which rule a line breaks first, but for the check of its chain.
    pub fn plain_fault(&mut self, line: &Line) -> Result<Option<Why>, AllocError>
        ensures value { IfOk result (λ why. why ≡ plain_fault self.old line.now) }
        ensures same { self.new ≡ self.old }
    {
        if let Some(why) = self.place_fault(line) {
            return Ok(Some(why));
        }
        self.own_fault(line)
    }

    /// Which rule a line breaks first.
    pub fn fault(&mut self, signs: &mut Signs, line: &Line) -> Result<Option<Why>, AllocError>
        ensures value { IfOk result (λ why. why ≡ fault self.old line.now) }
        ensures same { self.new ≡ self.old }
    {
        if let Some(why) = self.place_fault(line) {
            return Ok(Some(why));
        }
        let bits = self.bits.as_slice();
        if let Some(why) = derivation_fault(signs, bits, self.store.known(), line)? {
            return Ok(Some(why));
        }
        self.own_fault(line)
    }

    /// The known clause that a line makes.
    fn noted(&self, line: &Line) -> Result<Option<Known>, AllocError>
        ensures { IfOk result (λ known. known ≡ noted self.now.bits line.now) }
    {
        match line {
            Line::Learnt { clause, .. } => Ok(Some(rival_known(self.alloc, clause)?)),
            Line::Zero { bit, .. } => match bit_at(self.bits.as_slice(), *bit) {
                Some(lit) => Ok(Some(bit_known(self.alloc, lit.negated())?)),
                None => Ok(None),
            },
            Line::One { bit, .. } => match bit_at(self.bits.as_slice(), *bit) {
                Some(lit) => Ok(Some(bit_known(self.alloc, lit)?)),
                None => Ok(None),
            },
            _ => Ok(None),
        }
    }

    /// Takes a line in. After an error nothing was taken.
    pub fn accept(&mut self, line: &Line) -> Result<(), AllocError>
        requires { plain_fault self.old line.now ≡ None }
        ensures ok { OnOk result (self.new ≡ accept self.old line.now) }
        ensures err { OnErr result (self.new ≡ self.old) }
    {
        let noted = self.noted(line)?;
        self.store.extend(noted)?;
        self.lines += 1;
        self.settled += count_settled(line);
        self.ended = is_last(line);
        Ok(())
    }

    pub fn mark(&self) -> Mark
        ensures value { result ≡ mark_of self.now }
        ensures fits { Fits self.now }
    {
        Mark {
            known: self.store.known().len(),
            lines: self.lines,
            settled: self.settled,
            ended: self.ended,
        }
    }

    /// Goes back to where a mark was made.
    pub fn back(&mut self, mark: Mark)
        requires within { mark.known ≤ length self.old.known }
        requires fits { Fits (back_to mark self.old) }
        ensures { self.new ≡ back_to mark self.old }
    {
        self.store.truncate(mark.known);
        self.lines = mark.lines;
        self.settled = mark.settled;
        self.ended = mark.ended;
    }
}

fn unless(met: bool, why: Why) -> Option<Why>
    ensures { result ≡ unless met why }
{
    if met { None } else { Some(why) }
}
