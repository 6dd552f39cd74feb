//! The texts of faults of specs.

ghost use Rattle.std.specs.Prelude.{◌≡◌, codes, IfOk};
ghost use Rattle.std.specs.String.{string_bytes};
ghost use Rattle.run_answers.specs.FaultTexts as texts;

use spec_grammar::{Form, SpecFault};
use std::alloc::{AllocError, Global};

/// The name of a form that is not supported.
fn form_name(form: Form) -> &'static str
    ensures { result.now ≡ texts.form_name form }
{
    match form {
        Form::Propagation => "Propagation",
        Form::ConcreteAssign => "ConcreteAssign",
        Form::AnyValue => "AnyValue",
        Form::Quoted => "Quoted",
        Form::Flags => "Flags",
        Form::Reference => "Reference",
        Form::EdgeAttributes => "EdgeAttributes",
        Form::Namespace => "Namespace",
        Form::NestedDependency => "NestedDependency",
        Form::ProvidesForm => "ProvidesForm",
    }
}

/// A name with a place.
pub(crate) fn at_place(alloc: Global, name: &str, place: u64) -> Result<String, AllocError>
    ensures { IfOk result (λ text. string_bytes text ≡ texts.at_place name.now place) }
{
    format!(in alloc; "{name} {place}")
}

/// The text of a fault of specs, as `Unsupported 5 NestedDependency`.
#[tactic(auto, unfolding(crate::specs::FaultTexts::spec_fault_text))]
pub fn spec_fault_text(alloc: Global, fault: SpecFault) -> Result<String, AllocError>
    ensures { IfOk result (λ text. string_bytes text ≡ texts.spec_fault_text fault) }
{
    match fault {
        SpecFault::Expected(place) => at_place(alloc, "Expected", place),
        SpecFault::Unsupported(place, form) => {
            let form = form_name(form);
            format!(in alloc; "Unsupported {place} {form}")
        }
        SpecFault::BadVersion(place) => at_place(alloc, "BadVersion", place),
        SpecFault::TwiceSet(place) => at_place(alloc, "TwiceSet", place),
        SpecFault::OutOfMemory => String::from_str(alloc, "OutOfMemory"),
    }
}
