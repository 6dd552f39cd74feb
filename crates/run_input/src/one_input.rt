//! What holds of the input that any command names.

ghost use Rattle.std.specs.Prelude.{◌≡◌, Result};
ghost use Rattle.outside_desk.specs.Files.{Files};
ghost use Rattle.run_answers.specs.declared.refusal.Refusal.{Refusal};
ghost use Rattle.run_words.specs.Words.{Command};
ghost use Rattle.run_input.specs.declared.input.Input.{Input};
ghost use Rattle.run_input.specs.declared.query.Query.{Query};
ghost use Rattle.run_input.specs.Inputs.{ReadsInput, Seeks};

use crate::{installed_laws, site_laws};
use spec_grammar::reading_laws;

/// A command names one input at most over files, or is due one refusal at most; and it looks for
/// one thing at most, or is due one.
pub fn input_laws()
    ensures one { (files : Files) (command : Command) (a b : Result Input Refusal)
        → ReadsInput files command a
        → ReadsInput files command b → a ≡ b }
    ensures one_query { (files : Files) (command : Command) (a b : Result Query Refusal)
        → Seeks files command a
        → Seeks files command b → a ≡ b }
{
    reading_laws();
    site_laws();
    installed_laws();
}
