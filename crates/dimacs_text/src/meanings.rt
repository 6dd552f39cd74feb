//! What a literal stands for, as words behind a blank.

ghost use Rattle.std.specs.Prelude.{◌≡◌, ◌++◌, ◌<◌, OnOk};
ghost use Rattle.dimacs_text.specs.Meanings as meanings;

use crate::signs::write_number;
use graph_core::{Compiler, Origin, Version};
use plain_data::Word;
use std::alloc::{AllocError, Global};

// Each of these appends a text to `out`, or some of it after an error.

/// What may be chosen.
pub(crate) trait Meaning {
    ghost use Rattle.std.specs.Prelude.{◌≡◌, ◌++◌, ℕ, List, OnOk};

    ghost meaning_of: { Self → List ℕ };

    fn write(&self, alloc: Global, out: &mut Vec<u8>) -> Result<(), AllocError>
        ensures { OnOk result (out.new.items ≡ out.old.items ++ meaning_of self.now) };
}

impl Meaning for Word {
    ghost meaning_of = { meanings.word_text };

    #[tactic(auto, unfolding(crate::specs::Meanings::word_text))]
    fn write(&self, _: Global, out: &mut Vec<u8>) -> Result<(), AllocError> {
        out.extend_from_slice(b" ")?;
        out.extend_from_slice(self.as_str().as_bytes())
    }
}

impl Meaning for Version {
    ghost meaning_of = { meanings.word_text };

    #[tactic(auto, unfolding(crate::specs::Meanings::word_text))]
    fn write(&self, _: Global, out: &mut Vec<u8>) -> Result<(), AllocError> {
        out.extend_from_slice(b" ")?;
        out.extend_from_slice(self.text().as_bytes())
    }
}

impl Meaning for Origin {
    ghost meaning_of = { meanings.origin_text };

    #[tactic(auto, unfolding(crate::specs::Meanings::origin_text))]
    fn write(&self, alloc: Global, out: &mut Vec<u8>) -> Result<(), AllocError> {
        match self {
            Origin::Built => out.extend_from_slice(b" built"),
            Origin::External(entry) => {
                out.extend_from_slice(b" external ")?;
                write_number(alloc, *entry, out)
            }
            Origin::Installed(hash) => {
                out.extend_from_slice(b" installed ")?;
                out.extend_from_slice(hash.as_str().as_bytes())
            }
        }
    }
}

impl Meaning for Option<Compiler> {
    ghost meaning_of = { meanings.compiler_text };

    #[tactic(auto, unfolding(crate::specs::Meanings::compiler_text))]
    fn write(&self, _: Global, out: &mut Vec<u8>) -> Result<(), AllocError> {
        match self {
            None => out.extend_from_slice(b" -"),
            Some(compiler) => {
                out.extend_from_slice(b" ")?;
                out.extend_from_slice(compiler.name.as_str().as_bytes())?;
                out.extend_from_slice(b"@=")?;
                out.extend_from_slice(compiler.version.text().as_bytes())
            }
        }
    }
}

impl Meaning for Option<Word> {
    ghost meaning_of = { meanings.prefix_text };

    #[tactic(auto, unfolding(crate::specs::Meanings::prefix_text))]
    fn write(&self, _: Global, out: &mut Vec<u8>) -> Result<(), AllocError> {
        match self {
            None => out.extend_from_slice(b" -"),
            Some(path) => {
                out.extend_from_slice(b" =")?;
                write_safe(path.as_str().as_bytes(), out)
            }
        }
    }
}

fn hex_digit(value: u8) -> u8
    requires { value < 16 }
    ensures { result ≡ meanings.hex_digit value }
{
    if value < 10 { 48 + value } else { 87 + value }
}

/// A byte as it is, or behind a backslash in hexadecimal digits where it is none but white space or
/// a control byte, or a backslash.
#[tactic(auto, unfolding(crate::specs::Meanings::safe_byte))]
fn write_safe_byte(byte: u8, out: &mut Vec<u8>) -> Result<(), AllocError>
    ensures { OnOk result (out.new.items ≡ out.old.items ++ meanings.safe_byte byte) }
{
    if 32 < byte && byte != 92 {
        out.extend_from_slice(&[byte])
    } else {
        out.extend_from_slice(&[92, hex_digit(byte / 16), hex_digit(byte % 16)])
    }
}

/// A text without blanks and line feeds.
fn write_safe(text: &[u8], out: &mut Vec<u8>) -> Result<(), AllocError>
    ensures { OnOk result (out.new.items ≡ out.old.items ++ meanings.safe_text text.now) }
{
    for byte in text {
        write_safe_byte(*byte, out)?;
    }
    Ok(())
}
