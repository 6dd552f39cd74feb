//! Sums of weights, and how many bits a number has.
ghost use Rattle.std.specs.Prelude.{◌≡◌, ◌<◌, ◌≤◌, ◌^◌};
ghost use Rattle.clause_circuits.specs.Trees.{total};
ghost use Rattle.clause_circuits.specs.Binary.{size};

use clause_store::Lit;

/// How many bits a number has; of a number from 2^63 on, 63.
pub fn size(number: u64) -> usize
    ensures value { result ≡ size number }
    ensures small { result ≤ 63 }
{
    let mut left = number;
    for bits in 0..63 {
        if left == 0 {
            return bits;
        }
        left /= 2;
    }
    63
}

/// The sum of all weights.
pub fn total(terms: &[(u64, Lit)]) -> u64
    requires { total terms.now < 2 ^ 63 }
    ensures { result ≡ total terms.now }
{
    terms.iter().map(|t| t.0).sum()
}
