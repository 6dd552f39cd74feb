//! What a fault does not hide. What is proved is the contract.
ghost use Rattle.std.specs.Prelude.{◌≡◌, ℕ, List, Option, Some, Err};
ghost use Rattle.outside_desk.specs.Files.{Files};
ghost use Rattle.run_input.specs.Inputs.{IsInputPath, ReadsInput};
ghost use Rattle.run_input.specs.Sites.{SettingsAt};
ghost use Rattle.run_output.specs.Exits.{Spoken};
ghost use Rattle.run_output.specs.Refusal.{Refusal};
ghost use Rattle.run_output.specs.Words.{Command, command_of};
ghost use Rattle.concretizer.specs.Headline.{IsReadFault};

use run_input::{input_laws, site_laws};

/// A fault hides no refusal that is due before it. Where the settings are refused, ReadFault names
/// the file of the settings alone; where the input is refused, none of the lock files and
/// certificates.
pub fn fault_laws()
    ensures settings { (files : Files) (words : List (List ℕ)) (faults : ℕ × ℕ)
        (after : Option Files) (out err : Spoken) (command : Command) (refusal : Refusal)
        → command_of words ≡ Some command → SettingsAt files command.settings (Err refusal)
        → (fault : IsReadFault words faults (Some files, after) out err)
        → fault.path ≡ command.settings }
    ensures input { (files : Files) (words : List (List ℕ)) (faults : ℕ × ℕ)
        (after : Option Files) (out err : Spoken) (command : Command) (refusal : Refusal)
        → command_of words ≡ Some command → ReadsInput files command (Err refusal)
        → (fault : IsReadFault words faults (Some files, after) out err)
        → IsInputPath (Some files) command fault.path }
{
    site_laws();
    input_laws();
}
