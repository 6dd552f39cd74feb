//! The texts of faults of lock files, and the names of rules.

ghost use Rattle.std.specs.Prelude.{◌≡◌, IfOk};
ghost use Rattle.std.specs.String.{string_bytes};
ghost use Rattle.record_reader.specs.FaultTexts.{two_texts};
ghost use Rattle.run_answers.specs.FaultTexts as texts;

use crate::settings_faults::at_pointer;
use graph_rules::Rule;
use lockfile::LockFault;
use std::alloc::{AllocError, Global};

/// A name with two hashes.
fn two_hashes(alloc: Global, name: &str, first: &str, second: &str) -> Result<String, AllocError>
    ensures { IfOk result (λ text. string_bytes text ≡ two_texts name.now
        first.now second.now) }
{
    format!(in alloc; "{name} {first} {second}")
}

/// The text of a fault of a lock file, as `WrongKind /nodes/0/os` or `Dangling PARENT CHILD`.
#[tactic(auto, unfolding(crate::specs::FaultTexts::lock_fault_text))]
pub fn lock_fault_text(alloc: Global, fault: &LockFault) -> Result<String, AllocError>
    ensures { IfOk result (λ text. string_bytes text ≡ texts.lock_fault_text fault.now) }
{
    match fault {
        LockFault::NotJson => String::from_str(alloc, "NotJson"),
        LockFault::WrongKind(at) => at_pointer(alloc, "WrongKind", at.as_str()),
        LockFault::TwiceNamed(name) => at_pointer(alloc, "TwiceNamed", name.as_str()),
        LockFault::HashDiffers { written, computed } => {
            two_hashes(alloc, "HashDiffers", written.as_str(), computed.as_str())
        }
        LockFault::Dangling { parent, child } => {
            two_hashes(alloc, "Dangling", parent.as_str(), child.as_str())
        }
        LockFault::OutOfMemory => String::from_str(alloc, "OutOfMemory"),
    }
}

/// The name of a rule of valid graphs.
pub fn rule_name(rule: Rule) -> &'static str
    ensures { result.now ≡ texts.rule_name rule }
{
    match rule {
        Rule::Root => "Root",
        Rule::Buildable => "Buildable",
        Rule::Version => "Version",
        Rule::Variant => "Variant",
        Rule::Compiler => "Compiler",
        Rule::Machine => "Machine",
        Rule::Edge => "Edge",
        Rule::ExtraEdge => "ExtraEdge",
        Rule::Constraint => "Constraint",
        Rule::Conflict => "Conflict",
        Rule::Requirement => "Requirement",
        Rule::Required => "Required",
        Rule::Kept => "Kept",
        Rule::Provider => "Provider",
        Rule::UnusedProvider => "UnusedProvider",
        Rule::Together => "Together",
        Rule::Cycle => "Cycle",
        Rule::Unreachable => "Unreachable",
    }
}
