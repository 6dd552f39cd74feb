//! The signs of variables.
ghost use Rattle.std.specs.Prelude.{◌≡◌, ◌↔◌, ℕ, Bool, Some, None, length, slice_get, OnOk, OnErr, IfOk, IsTrue};
ghost use Rattle.log_checker.specs.Signs.{sign_of, with_sign, with_touched, is_clear, are_clear, AreTouched};

use std::alloc::{AllocError, Global};
use std::collections::BTreeMap;
use std::marker::Model;

/// For each variable a sign or none, seen as the map of them. A call costs as much as it touches:
/// so a chain costs what its clauses are, however many variables there are.
#[derive(Drop)]
pub struct Signs {
    alloc: Global,
    // The signs of the input's variables.
    marks: Vec<Option<bool>>,
    // Those of all others: a stated clause may have a variable of any number.
    above: BTreeMap<u64, bool>,
    // The variables of the input that may have a sign.
    touched: Vec<u64>,
}

impl Model for Signs {
    ghost use Rattle.log_checker.specs.Signs.{SignMap, AreTouched, IsAbove};

    ghost Value = { SignMap };

    ghost view = { λ s. record { marks = s.marks.items; above = s.above.entries } };

    ghost invariant = { λ s. AreTouched s.marks.items s.touched.items
        × IsAbove s.marks.items s.above.entries };
}

impl Signs {
    /// No sign, with room for so many variables.
    pub fn new(alloc: Global, vars: usize) -> Result<Signs, AllocError>
        ensures { IfOk result (λ signs. (x : ℕ) → sign_of signs x ≡ None) }
    {
        let marks = vec![in alloc; None; vars]?;
        Ok(Signs {
            alloc,
            marks,
            above: BTreeMap::new(alloc),
            touched: Vec::new(alloc),
        })
    }

    /// What the signs are kept with.
    pub fn alloc(&self) -> Global {
        self.alloc
    }

    /// Whether a variable's sign stands in the row.
    pub fn is_in_row(&self, var: u64) -> bool {
        (var as usize) < self.marks.len()
    }

    pub fn get(&self, var: u64) -> Option<bool>
        ensures { result ≡ sign_of self.now var }
    {
        match self.marks.get(var as usize) {
            Some(mark) => *mark,
            None => self.above.get(&var).copied(),
        }
    }

    /// Gives a variable a sign.
    pub fn put(&mut self, var: u64, sign: bool) -> Result<(), AllocError>
        ensures { OnOk result ((x : ℕ)
            → sign_of self.new x ≡ with_sign (sign_of self.old) var (Some sign) x) }
    {
        let place = var as usize;
        if place < self.marks.len() {
            touch(&mut self.touched, self.marks[place], var)?;
            self.marks[place] = Some(sign);
        } else {
            self.above.insert(var, sign)?;
        }
        Ok(())
    }

    /// Takes a variable's sign.
    pub fn remove(&mut self, var: u64)
        ensures { (x : ℕ) → sign_of self.new x ≡ with_sign (sign_of self.old) var None x }
    {
        let place = var as usize;
        if place < self.marks.len() {
            self.marks[place] = None;
        } else {
            self.above.remove(&var);
        }
    }

    /// Whether no variable has a sign.
    pub fn is_empty(&self) -> bool
        ensures { IsTrue result ↔ ((x : ℕ) → sign_of self.now x ≡ None) }
    {
        self.above.is_empty() && are_clear(self.marks.as_slice(), self.touched.as_slice())
    }

    /// Takes all signs.
    pub fn clear(&mut self)
        ensures { (x : ℕ) → sign_of self.new x ≡ None }
    {
        self.above.clear();
        clear_all(&mut self.marks, self.touched.as_slice());
        self.touched.clear();
    }
}

/// Notes that a variable is about to have a sign. One that has a sign already was noted before: so
/// there are no more notes than signs that were taken and variables that have one.
fn touch(touched: &mut Vec<u64>, mark: Option<bool>, var: u64) -> Result<(), AllocError>
    ensures ok { OnOk result (touched.new.items ≡ with_touched mark touched.old.items var) }
    ensures err { OnErr result (touched.new.items ≡ touched.old.items) }
{
    if mark.is_none() {
        touched.push(var)?;
    }
    Ok(())
}

fn is_clear(marks: &[Option<bool>], var: u64) -> bool
    ensures { result ≡ is_clear (slice_get marks.now var) }
{
    match marks.get(var as usize) {
        Some(mark) => mark.is_none(),
        None => true,
    }
}

fn are_clear(marks: &[Option<bool>], vars: &[u64]) -> bool
    ensures { result ≡ are_clear marks.now vars.now }
{
    for var in vars {
        if !is_clear(marks, *var) {
            return false;
        }
    }
    true
}

fn clear_all(marks: &mut [Option<bool>], vars: &[u64])
    requires { AreTouched marks.old vars.now }
    ensures length { length marks.new ≡ length marks.old }
    ensures clear { (x : ℕ) (v : Bool) → slice_get marks.new x ≡ Some (Some v) → ⊥ }
{
    for var in vars {
        let place = *var as usize;
        if place < marks.len() {
            marks[place] = None;
        }
    }
}
