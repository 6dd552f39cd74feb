//! The texts of faults of recipes.

ghost use Rattle.std.specs.Prelude.{◌≡◌, codes, IfOk};
ghost use Rattle.std.specs.String.{string_bytes};
ghost use Rattle.run_answers.specs.FaultTexts as texts;

use crate::spec_faults::{at_place, spec_fault_text};
use recipe_lexer::LexFault;
use recipe_reader::RecipeFault;
use spec_grammar::SpecFault;
use std::alloc::{AllocError, Global};

/// The text of a fault of tokens, as `OpenString 30`.
#[tactic(auto, unfolding(crate::specs::FaultTexts::lex_fault_text))]
fn lex_fault_text(alloc: Global, fault: LexFault) -> Result<String, AllocError>
    ensures { IfOk result (λ text. string_bytes text ≡ texts.lex_fault_text fault) }
{
    match fault {
        LexFault::NotUtf8 => String::from_str(alloc, "NotUtf8"),
        LexFault::OpenString(place) => at_place(alloc, "OpenString", place),
        LexFault::OpenBracket(place) => at_place(alloc, "OpenBracket", place),
        LexFault::BadIndent(place) => at_place(alloc, "BadIndent", place),
        LexFault::OutOfMemory => String::from_str(alloc, "OutOfMemory"),
    }
}

fn in_tokens(alloc: Global, fault: LexFault) -> Result<String, AllocError>
    ensures { IfOk result (λ text. string_bytes text ≡ texts.in_tokens fault) }
{
    let inner = lex_fault_text(alloc, fault)?;
    format!(in alloc; "Lex {inner}")
}

fn in_text(alloc: Global, place: u64, fault: SpecFault) -> Result<String, AllocError>
    ensures { IfOk result (λ text. string_bytes text ≡ texts.placed_fault_text place fault) }
{
    let inner = spec_fault_text(alloc, fault)?;
    format!(in alloc; "Spec {place} {inner}")
}

/// The text of a fault of a recipe, as `Lex OpenString 30` or `Spec 33 Expected 2`.
#[tactic(auto, unfolding(crate::specs::FaultTexts::recipe_fault_text))]
pub fn recipe_fault_text(alloc: Global, fault: RecipeFault) -> Result<String, AllocError>
    ensures { IfOk result (λ text. string_bytes text ≡ texts.recipe_fault_text fault) }
{
    match fault {
        RecipeFault::Lex(fault) => in_tokens(alloc, fault),
        RecipeFault::Unsupported(place) => at_place(alloc, "Unsupported", place),
        RecipeFault::NoClass => String::from_str(alloc, "NoClass"),
        RecipeFault::TwoClasses(place) => at_place(alloc, "TwoClasses", place),
        RecipeFault::TooDeep(place) => at_place(alloc, "TooDeep", place),
        RecipeFault::Spec(place, fault) => in_text(alloc, place, fault),
        RecipeFault::BadArgument(place) => at_place(alloc, "BadArgument", place),
        RecipeFault::BadDefault(place) => at_place(alloc, "BadDefault", place),
        RecipeFault::TwiceVersion(place) => at_place(alloc, "TwiceVersion", place),
        RecipeFault::OutOfMemory => String::from_str(alloc, "OutOfMemory"),
    }
}
