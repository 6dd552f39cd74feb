//! The texts of faults of databases.
ghost use Rattle.std.specs.Prelude.{◌≡◌, IfOk};
ghost use Rattle.std.specs.String.{string_bytes};
ghost use Rattle.record_reader.specs.FaultTexts as texts;

use reuse_db::DbFault;
use std::alloc::{AllocError, Global};

fn one_text(alloc: Global, name: &str, text: &str) -> Result<String, AllocError>
    ensures { IfOk result (λ whole. string_bytes whole ≡ texts.name_and_text name.now text.now) }
{
    format!(in alloc; "{name} {text}")
}

fn two_texts(alloc: Global, name: &str, first: &str, second: &str) -> Result<String, AllocError>
    ensures { IfOk result (λ whole. string_bytes whole ≡ texts.two_texts name.now
        first.now second.now) }
{
    format!(in alloc; "{name} {first} {second}")
}

/// The text of a fault of a database, as `WrongKind /records/0/os` or `Dangling PARENT CHILD`.
#[tactic(auto, unfolding(crate::specs::FaultTexts::fault_text))]
pub fn fault_text(alloc: Global, fault: &DbFault) -> Result<String, AllocError>
    ensures { IfOk result (λ text. string_bytes text ≡ texts.fault_text fault.now) }
{
    match fault {
        DbFault::NotJson => String::from_str(alloc, "NotJson"),
        DbFault::WrongKind(at) => one_text(alloc, "WrongKind", at.as_str()),
        DbFault::HashDiffers { written, computed } => {
            two_texts(alloc, "HashDiffers", written.as_str(), computed.as_str())
        }
        DbFault::TwiceHash(hash) => one_text(alloc, "TwiceHash", hash.as_str()),
        DbFault::Dangling { parent, child } => {
            two_texts(alloc, "Dangling", parent.as_str(), child.as_str())
        }
        DbFault::OutOfMemory => String::from_str(alloc, "OutOfMemory"),
    }
}
