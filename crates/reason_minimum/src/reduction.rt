//! A list of demands that cannot be met together, on the way to a least one.
ghost use Rattle.std.specs.Prelude.{◌≡◌, ◌≤◌, ◌<◌, ℕ, Bool, true, false, [], ◌∷◌, drop, length, IfOk, IfSome, IfNone, OnOk};
ghost use Rattle.std.specs.List.{filter};
ghost use Rattle.clause_store.specs.Clauses.{Clauses};
ghost use Rattle.explain_failure.specs.Uses.{stands, IsRising};
ghost use Rattle.explain_failure.specs.Rising.{with_number};
ghost use Rattle.reason_minimum.specs.Parts.{without_number};
ghost use Rattle.reason_minimum.specs.Reductions.{Reduces, IsNeeded, IsModelFor, AreModels, all_but, in_rest};
ghost use Rattle.reason_minimum.specs.declared.reasons.LeastReasons.TheVariants.{Minimal};

use crate::broken::only_broken;
use crate::numbers::{insertion_place, joined, stands, those_of, without_number};
use crate::reasons::LeastReasons;
use clause_store::ClauseList;
use plain_data::List;
use std::alloc::{AllocError, Global};

/// A list of demands that cannot be met together: some that are known to be needed, and candidates
/// to be left out.
#[derive(Drop)]
pub struct Reduction {
    /// What is needed, rising and each once.
    pub needed: Vec<u64>,
    /// For each of these, at its place, a model of all others of the list.
    pub models: Vec<List<bool>>,
    /// What may not be needed, rising and each once.
    pub candidates: Vec<u64>,
    /// How many candidates are left out at once, at most; but one always is.
    pub several: usize,
}

impl Reduction {
    /// All demands of a list are candidates.
    pub fn new(alloc: Global, demands: List<u64>) -> Reduction
        ensures needed { result.needed.items ≡ [] }
        ensures models { result.models.items ≡ [] }
        ensures candidates { result.candidates.items ≡ demands }
    {
        let several = demands.len();
        Reduction {
            needed: Vec::new(alloc),
            models: Vec::new(alloc),
            candidates: demands.into_vec(),
            several,
        }
    }

    /// Whether there are candidates.
    pub fn has_candidates(&self) -> bool
        ensures some { result ≡ true → 0 < length self.now.candidates.items }
        ensures none { result ≡ false → length self.now.candidates.items ≡ 0 }
    {
        !self.candidates.is_empty()
    }

    /// How many candidates are left out next.
    pub fn count(&self) -> usize
        requires { 0 < length self.now.candidates.items }
        ensures within { result ≤ length self.now.candidates.items }
        ensures some { 0 < result }
        ensures several { 1 < result → result ≤ self.now.several }
    {
        self.several.min(self.candidates.len()).max(1)
    }

    /// The list without so many first candidates, in rising order.
    pub fn rest(&self, alloc: Global, count: usize) -> Result<Vec<u64>, AllocError>
        requires rising { IsRising self.now.needed.items }
        requires within { count ≤ length self.now.candidates.items }
        ensures rising { IfOk result (λ rest. IsRising rest.items) }
        ensures members { IfOk result (λ rest. (d : ℕ) → stands rest.items d
            ≡ in_rest self.now count d) }
    {
        let others = behind(self.candidates.as_slice(), count);
        joined(alloc, self.needed.as_slice(), others)
    }

    /// Keeps those candidates behind the first ones that are among some demands.
    pub fn keep(&mut self, alloc: Global, count: usize, demands: &[u64]) -> Result<(), AllocError>
        requires { count ≤ length self.old.candidates.items }
        ensures candidates { OnOk result (self.new.candidates.items
            ≡ filter (stands demands.now) (drop count self.old.candidates.items)) }
        ensures needed { OnOk result (self.new.needed.items ≡ self.old.needed.items) }
        ensures models { OnOk result (self.new.models.items ≡ self.old.models.items) }
        ensures several { OnOk result (self.new.several ≡ self.old.several) }
    {
        let others = behind(self.candidates.as_slice(), count);
        self.candidates = those_of(alloc, others, demands)?;
        Ok(())
    }

    /// Notes that a candidate is needed, since the model meets all other demands of the list.
    pub fn settle(
        &mut self,
        alloc: Global,
        demand: u64,
        model: List<bool>,
    ) -> Result<(), AllocError>
        requires { length self.old.models.items ≡ length self.old.needed.items }
        ensures reduces { OnOk result ((s : Clauses) → Reduces s self.old
            → IsNeeded s self.old model demand → Reduces s self.new) }
        ensures candidates { OnOk result (self.new.candidates.items
            ≡ without_number demand self.old.candidates.items) }
        ensures several { OnOk result (self.new.several ≡ self.old.several) }
    {
        add_needed(&mut self.needed, &mut self.models, demand, model)?;
        self.candidates = without_number(alloc, self.candidates.as_slice(), demand)?;
        Ok(())
    }

    /// Which candidate a model of the rest shows to be needed. There is one where one alone is left
    /// out.
    pub fn needed_one(
        &self,
        alloc: Global,
        clauses: &ClauseList,
        count: usize,
        model: &[bool],
    ) -> Result<Option<u64>, AllocError>
        requires rising { IsRising self.now.needed.items }
        requires some { 0 < length self.now.candidates.items }
        requires model { IsModelFor clauses.now (in_rest self.now count) model.now }
        ensures some { IfOk result (λ one. IfSome one (IsNeeded clauses.now self.now model.now)) }
        ensures none { IfOk result (λ one. IfNone one (count ≡ 1 → ⊥)) }
    {
        if count == 1 {
            return Ok(Some(first_of(self.candidates.as_slice())));
        }
        let all = joined(alloc, self.needed.as_slice(), self.candidates.as_slice())?;
        let Some(demand) = only_broken(alloc, clauses, all.as_slice(), model)? else {
            return Ok(None);
        };
        if stands(self.candidates.as_slice(), demand) {
            Ok(Some(demand))
        } else {
            Ok(None)
        }
    }

    /// The needed demands alone.
    pub fn into_minimal(self) -> LeastReasons
        ensures { result ≡ Minimal self.needed.items self.models.items }
    {
        let Reduction {
            needed,
            models,
            candidates: _,
            several: _,
        } = self;
        LeastReasons::Minimal {
            demands: List::from_vec(needed),
            models: List::from_vec(models),
        }
    }
}

/// Puts a demand in its place, and its model at the same one.
fn add_needed(
    needed: &mut Vec<u64>,
    models: &mut Vec<List<bool>>,
    demand: u64,
    model: List<bool>,
) -> Result<(), AllocError>
    requires { length models.old.items ≡ length needed.old.items }
    ensures needed { OnOk result (needed.new.items ≡ with_number needed.old.items demand) }
    ensures models { OnOk result ((s : Clauses) (asked : ℕ → Bool)
        → AreModels s asked needed.old.items models.old.items
        → IsModelFor s (all_but asked demand) model
        → AreModels s asked needed.new.items models.new.items) }
{
    match insertion_place(needed.as_slice(), demand) {
        Some(at) => {
            needed.insert(at, demand)?;
            models.insert(at, model)?;
            Ok(())
        }
        None => Ok(()),
    }
}

/// The first of some candidates.
pub fn first_of(candidates: &[u64]) -> u64
    requires { 0 < length candidates.now }
    ensures { candidates.now ≡ result ∷ drop 1 candidates.now }
{
    candidates[0]
}

/// The candidates behind the first ones.
fn behind(candidates: &[u64], count: usize) -> &[u64]
    requires { count ≤ length candidates.now }
    ensures { result.now ≡ drop count candidates.now }
{
    &candidates[count..]
}
