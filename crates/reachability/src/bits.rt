// Booleans in a row.
ghost use Rattle.std.specs.Prelude.{◌≡◌, ◌<◌, true, false, length, replicate, slice_index_or, slice_set, IfOk};

use std::alloc::{AllocError, Global};
use std::marker::Model;

/// Booleans in a row, a bit each in one allocation, seen as the list of them.
#[derive(Debug, Drop)]
pub struct Bits {
    len: usize,
    words: Vec<u64>,
}

impl Model for Bits {
    ghost use Rattle.std.specs.Prelude.{List, Bool, ◌*◌, ◌<◌, vec_len};
    ghost use Rattle.reachability.specs.Bits.{bits_of};

    ghost Value = { List Bool };

    ghost view = { λ b. bits_of b.len b.words.items };

    ghost invariant = { λ b. b.len < 64 * vec_len b.words };
}

impl Bits {
    /// As many Booleans, all false.
    pub fn new(alloc: Global, len: usize) -> Result<Bits, AllocError>
        ensures { IfOk result (λ bits. bits ≡ replicate len false) }
    {
        Ok(Bits {
            len,
            words: vec![in alloc; 0; len / 64 + 1]?,
        })
    }

    /// How many there are.
    pub fn len(&self) -> usize
        ensures { result ≡ length self.now }
    {
        self.len
    }

    /// The Boolean at the place.
    pub fn get(&self, place: usize) -> bool
        requires { place < length self.now }
        ensures { result ≡ slice_index_or self.now place false }
    {
        (self.words[place / 64] >> (place % 64)) & 1 == 1
    }

    /// Makes the Boolean at the place true.
    pub fn set(&mut self, place: usize)
        requires { place < length self.old }
        ensures { self.new ≡ slice_set self.old place true }
    {
        self.words[place / 64] |= 1 << (place % 64);
    }
}
