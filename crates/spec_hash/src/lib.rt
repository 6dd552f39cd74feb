//! Hashes of texts, as lock files and databases write them.
//!
//! It promises: `hash_text` gives the first 20 bytes of SHA-256 (FIPS 180-4) in the letters of
//! base 32 (RFC 4648, section 6), in lower case; `Hash` holds 32 such letters and nothing else.
//! It stands on the crate `sha2`. It knows nothing of what the hashed texts mean.
#![tactic(auto)]

ghost use Rattle.std.specs.Prelude.{◌≡◌, ◌<◌, ◌∷◌, [], codes, Some, None, IsTrue, length, slice_index, if◌then◌else◌};
ghost use Rattle.std.specs.List.{list_all};
ghost use Rattle.spec_hash.specs.Base32.{letter_of, five_bits, hash_of, is_letter, is_hash, base32};

use sha2::{Digest, Sha256};
use std::marker::Model;

/// How many letters a hash has: 20 bytes at five bits a letter.
const LETTERS: usize = 32;

/// The hash of a text: 32 characters of `a` to `z` and `2` to `7`. Seen as their bytes.
#[derive(Clone, Copy, Debug, PartialEq, Eq, PartialOrd, Ord, Hash)]
pub struct Hash {
    letters: [u8; LETTERS],
}

impl Model for Hash {
    ghost use Rattle.std.specs.Prelude.{List, ℕ, IsTrue};
    ghost use Rattle.std.specs.List.{list_all};
    ghost use Rattle.spec_hash.specs.Base32.{is_letter};

    ghost Value = { List ℕ };

    ghost view = { λ a. a.letters };

    ghost invariant = { λ a. IsTrue (list_all is_letter a.letters) };

    ghost inverse = { λ letters. record { letters = letters } };
}

impl Hash {
    /// The hash that a text spells; `None` where it is not 32 characters of `a` to `z` and `2`
    /// to `7`.
    pub fn read(text: &str) -> Option<Hash>
        ensures { result ≡ (if is_hash text.now then Some text.now else None) }
    {
        let bytes = text.as_bytes();
        if !spells_hash(bytes) {
            return None;
        }
        let mut letters = [0; LETTERS];
        letters.copy_from_slice(bytes);
        Some(Hash { letters })
    }

    /// The 32 characters.
    pub fn as_str(&self) -> &str
        ensures { result.now ≡ self.now }
    {
        str::from_utf8(&self.letters).unwrap()
    }
}

/// The hash of a text: the first 20 bytes of its SHA-256, in base 32.
pub fn hash_text(bytes: &[u8]) -> Hash
    ensures { result ≡ hash_of bytes.now }
{
    let digest = Sha256::digest(bytes);
    Hash {
        letters: spell(&digest[..20]),
    }
}

fn is_letter(b: u8) -> bool
    ensures { result ≡ is_letter b }
{
    matches!(b, b'a'..=b'z' | b'2'..=b'7')
}

fn are_letters(bytes: &[u8]) -> bool
    ensures { result ≡ list_all is_letter bytes.now }
{
    bytes.iter().all(|b| is_letter(*b))
}

fn spells_hash(bytes: &[u8]) -> bool
    ensures { result ≡ is_hash bytes.now }
{
    bytes.len() == LETTERS && are_letters(bytes)
}

/// The letter of a digit.
fn letter(digit: u64) -> u8
    requires { digit < 32 }
    ensures { result ≡ letter_of digit }
{
    if digit < 26 {
        b'a' + digit as u8
    } else {
        b'2' - 26 + digit as u8
    }
}

/// A byte, and 0 behind the last one.
fn byte_at(bytes: &[u8], i: usize) -> u64
    ensures value { result ≡ slice_index bytes.now i }
    ensures byte { result < 256 }
{
    match bytes.get(i) {
        Some(b) => u64::from(*b),
        None => 0,
    }
}

/// The k-th five bits of the bytes, the highest first.
fn five_bits_at(bytes: &[u8], k: usize) -> u64
    requires { k < 32 }
    ensures value { result ≡ five_bits bytes.now k }
    ensures small { result < 32 }
{
    let high = byte_at(bytes, 5 * k / 8);
    let low = byte_at(bytes, 5 * k / 8 + 1);
    ((high * 256 + low) >> (11 - 5 * k % 8)) % 32
}

/// 20 bytes in letters.
fn spell(bytes: &[u8]) -> [u8; LETTERS]
    ensures { result ≡ base32 bytes.now }
{
    let mut out = [0u8; LETTERS];
    for k in 0..LETTERS {
        out[k] = letter(five_bits_at(bytes, k));
    }
    out
}

/// Two rows of base 32 by computation. The first 48 bits of the second are `foobar`, which RFC 4648
/// (section 10) spells `MZXW6YTBOI`.
#[tactic(auto, unfolding(crate::specs::Base32::base32))]
pub fn worked_letters()
    ensures letters { base32 (0 ∷ 10 ∷ 20 ∷ 30 ∷ 40 ∷ 50 ∷ 60 ∷ 70 ∷ 80 ∷ 90 ∷ 100 ∷ 110 ∷ 120 ∷ 130
        ∷ 140 ∷ 150 ∷ 160 ∷ 170 ∷ 180 ∷ 190 ∷ []) ≡ codes "aafbihrigi6emuc2mrxhraums2qkvnf6" }
    ensures rfc { base32 (102 ∷ 111 ∷ 111 ∷ 98 ∷ 97 ∷ 114 ∷ 0 ∷ 0 ∷ 0 ∷ 0 ∷ 0 ∷ 0 ∷ 0 ∷ 0 ∷ 0 ∷ 0
        ∷ 0 ∷ 0 ∷ 0 ∷ 0 ∷ []) ≡ codes "mzxw6ytboiaaaaaaaaaaaaaaaaaaaaaa" }
{}
