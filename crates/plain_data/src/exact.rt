// Copies and comparisons that clauses see exactly.
ghost use Rattle.std.specs.Prelude.{◌≡◌, ◌↔◌, IfOk, IsTrue};

use crate::{List, Word};
use std::alloc::{AllocError, Global};

/// A value that can be copied, so that the copy is seen as the same.
pub trait Duplicate: Drop {
    /// A copy that is seen as the same.
    fn duplicate(&self, alloc: Global) -> Result<Self, AllocError>
    where
        Self: Sized,
        ensures { IfOk result (λ copy. copy ≡ self.now) };
}

/// A value that can be compared, by what it is seen as.
pub trait Same {
    /// Whether the two are seen as the same.
    fn same(&self, other: &Self) -> bool
        ensures { IsTrue result ↔ (self.now ≡ other.now) };
}

impl Duplicate for Word {
    fn duplicate(&self, alloc: Global) -> Result<Word, AllocError> {
        Word::new(alloc, self.as_str())
    }
}

impl Same for Word {
    fn same(&self, other: &Word) -> bool {
        self.as_str() == other.as_str()
    }
}

impl Duplicate for u64 {
    fn duplicate(&self, _: Global) -> Result<u64, AllocError> {
        Ok(*self)
    }
}

impl Same for u64 {
    fn same(&self, other: &u64) -> bool {
        *self == *other
    }
}

impl<T: Duplicate> Duplicate for Option<T> {
    fn duplicate(&self, alloc: Global) -> Result<Option<T>, AllocError> {
        match self {
            Some(value) => Ok(Some(value.duplicate(alloc)?)),
            None => Ok(None),
        }
    }
}

impl<T: Same> Same for Option<T> {
    fn same(&self, other: &Option<T>) -> bool {
        match (self, other) {
            (Some(a), Some(b)) => a.same(b),
            (None, None) => true,
            _ => false,
        }
    }
}

impl<A: Duplicate, B: Duplicate> Duplicate for (A, B) {
    fn duplicate(&self, alloc: Global) -> Result<(A, B), AllocError> {
        let first = self.0.duplicate(alloc)?;
        let second = self.1.duplicate(alloc)?;
        Ok((first, second))
    }
}

impl<A: Same, B: Same> Same for (A, B) {
    fn same(&self, other: &(A, B)) -> bool {
        self.0.same(&other.0) && self.1.same(&other.1)
    }
}

impl<T: Duplicate> Duplicate for List<T> {
    fn duplicate(&self, alloc: Global) -> Result<List<T>, AllocError> {
        let mut copy = List::from_vec(Vec::with_capacity(alloc, self.len())?);
        for value in self.as_slice() {
            copy.push(value.duplicate(alloc)?)?;
        }
        Ok(copy)
    }
}

impl<T: Same> Same for List<T> {
    fn same(&self, other: &List<T>) -> bool {
        let a = self.as_slice();
        let b = other.as_slice();
        if a.len() != b.len() {
            return false;
        }
        for i in 0..a.len() {
            if !a[i].same(&b[i]) {
                return false;
            }
        }
        true
    }
}
