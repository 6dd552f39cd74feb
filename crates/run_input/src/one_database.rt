//! What holds of the database that any path names.

ghost use Rattle.std.specs.Prelude.{◌≡◌, ℕ, List, Result};
ghost use Rattle.outside_desk.specs.Files.{Files};
ghost use Rattle.reuse_db.specs.declared.record.Record.{Record};
ghost use Rattle.run_answers.specs.declared.refusal.Refusal.{Refusal};
ghost use Rattle.run_input.specs.Installed.{DatabaseAt};

use record_reader::database_laws;

/// A path names one database at most, or is due one refusal at most.
pub fn installed_laws()
    ensures one { (files : Files) (path : List ℕ) (a b : Result (List Record) Refusal)
        → DatabaseAt files path a → DatabaseAt files path b → a ≡ b }
{
    database_laws();
}
