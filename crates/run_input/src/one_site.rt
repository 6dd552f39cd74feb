//! What holds of the settings that any path names.

ghost use Rattle.std.specs.Prelude.{◌≡◌, ℕ, List, Result};
ghost use Rattle.outside_desk.specs.Files.{Files};
ghost use Rattle.site_settings.specs.declared.settings.Settings.{Settings};
ghost use Rattle.run_answers.specs.declared.refusal.Refusal.{Refusal};
ghost use Rattle.run_input.specs.Sites.{SettingsAt};

use settings_reader::settings_laws;

/// A path names one settings at most, or is due one refusal at most.
pub fn site_laws()
    ensures one { (files : Files) (path : List ℕ) (a b : Result Settings Refusal)
        → SettingsAt files path a → SettingsAt files path b → a ≡ b }
{
    settings_laws();
}
