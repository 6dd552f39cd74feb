//! The texts of faults of settings.

ghost use Rattle.std.specs.Prelude.{◌≡◌, IfOk};
ghost use Rattle.std.specs.String.{string_bytes};
ghost use Rattle.record_reader.specs.FaultTexts.{name_and_text};
ghost use Rattle.run_answers.specs.FaultTexts as texts;

use crate::spec_faults::{at_place, spec_fault_text};
use settings_reader::SettingsFault;
use spec_grammar::SpecFault;
use std::alloc::{AllocError, Global};
use target_table::TargetFault;

/// The text of a fault of targets, as `TwiceNamed 1`.
#[tactic(auto, unfolding(crate::specs::FaultTexts::target_fault_text))]
fn target_fault_text(alloc: Global, fault: TargetFault) -> Result<String, AllocError>
    ensures { IfOk result (λ text. string_bytes text ≡ texts.target_fault_text fault) }
{
    match fault {
        TargetFault::TwiceNamed(place) => at_place(alloc, "TwiceNamed", place),
        TargetFault::UnknownParent(place) => at_place(alloc, "UnknownParent", place),
        TargetFault::CyclicTargets => String::from_str(alloc, "CyclicTargets"),
        TargetFault::OutOfMemory => String::from_str(alloc, "OutOfMemory"),
    }
}

fn in_targets(alloc: Global, fault: TargetFault) -> Result<String, AllocError>
    ensures { IfOk result (λ text. string_bytes text ≡ texts.in_targets fault) }
{
    let inner = target_fault_text(alloc, fault)?;
    format!(in alloc; "Targets {inner}")
}

/// A name with a pointer, or another text.
pub(crate) fn at_pointer(alloc: Global, name: &str, pointer: &str) -> Result<String, AllocError>
    ensures { IfOk result (λ text. string_bytes text ≡ name_and_text name.now pointer.now) }
{
    format!(in alloc; "{name} {pointer}")
}

fn in_spec(alloc: Global, pointer: &str, fault: SpecFault) -> Result<String, AllocError>
    ensures { IfOk result (λ text. string_bytes text ≡ texts.in_spec pointer.now fault) }
{
    let inner = spec_fault_text(alloc, fault)?;
    format!(in alloc; "Spec {pointer} {inner}")
}

/// The text of a fault of settings, as `WrongKind /os` or `Targets TwiceNamed 1`.
#[tactic(auto, unfolding(crate::specs::FaultTexts::settings_fault_text))]
pub fn settings_fault_text(alloc: Global, fault: &SettingsFault) -> Result<String, AllocError>
    ensures { IfOk result (λ text. string_bytes text ≡ texts.settings_fault_text fault.now) }
{
    match fault {
        SettingsFault::NotJson => String::from_str(alloc, "NotJson"),
        SettingsFault::UnknownKey(at) => at_pointer(alloc, "UnknownKey", at.as_str()),
        SettingsFault::WrongKind(at) => at_pointer(alloc, "WrongKind", at.as_str()),
        SettingsFault::Empty(at) => at_pointer(alloc, "Empty", at.as_str()),
        SettingsFault::TwiceNamed(at) => at_pointer(alloc, "TwiceNamed", at.as_str()),
        SettingsFault::Targets(fault) => in_targets(alloc, *fault),
        SettingsFault::Spec(at, fault) => in_spec(alloc, at.as_str(), *fault),
        SettingsFault::BadExternal(at) => at_pointer(alloc, "BadExternal", at.as_str()),
        SettingsFault::OutOfMemory => String::from_str(alloc, "OutOfMemory"),
    }
}
