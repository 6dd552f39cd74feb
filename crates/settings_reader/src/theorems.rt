//! What holds of all files of settings, and rows that show it.

ghost use Rattle.std.specs.Prelude.{◌≡◌, ◌≢◌, ℕ, true, List, [], ◌∷◌, Ok, codes};
ghost use Rattle.serde_json.specs.Data.{Data, array, boolean, item, member, no_items, no_members};
ghost use Rattle.serde_json.specs.Data.{number, object, string, unsigned};
ghost use Rattle.settings_reader.specs.Files.{IsSettingsFileFault, IsFirstFault, IsOfFile};
ghost use Rattle.settings_reader.specs.Settings.{IsSettings};
ghost use Rattle.settings_reader.specs.Values.{are_valued};
ghost use Rattle.site_settings.specs.Standard.{standard};
ghost use Rattle.site_settings.specs.declared.settings.Settings.{Settings};
ghost use Rattle.settings_reader.specs.declared.fault.SettingsFault.{SettingsFault};
ghost use Rattle.target_table.specs.declared.fault.TargetFault.TheVariants.{CyclicTargets};

use spec_grammar::{reading_laws, writing_laws};
use version_order::set_reading_laws;

/// A file says one thing at most: one settings, or one fault besides want of memory. A file of
/// settings is refused for want of memory alone. What it writes of an external has a value for each
/// variant.
pub fn settings_laws()
    ensures one_reading { (bytes : List ℕ) (a b : Settings) → IsOfFile bytes a
        → IsOfFile bytes b → a ≡ b }
    ensures one_fault { (bytes : List ℕ) (f g : SettingsFault) → IsSettingsFileFault bytes f
        → IsSettingsFileFault bytes g
        → f ≢ SettingsFault.OutOfMemory → g ≢ SettingsFault.OutOfMemory → f ≡ g }
    ensures right { (bytes : List ℕ) (settings : Settings) (f : SettingsFault)
        → IsOfFile bytes settings
        → IsSettingsFileFault bytes f → f ≡ SettingsFault.OutOfMemory }
    ensures valued { (bytes : List ℕ) (settings : Settings) → IsOfFile bytes settings
        → are_valued settings ≡ true }
{
    set_reading_laws();
    reading_laws();
    writing_laws();
}

/// Rows of the rules, computed.
pub fn worked_settings()
    // {}
    ensures standard { IsSettings (object no_members) (Ok standard) }
    // {"os":[]}
    ensures empty { IsFirstFault (object (member (codes "os") (array no_items) no_members))
        (SettingsFault.Empty (codes "/os")) }
    // {"color":1}
    ensures unknown { IsFirstFault
        (object (member (codes "color") (number (unsigned 1)) no_members))
        (SettingsFault.UnknownKey (codes "/color")) }
    // {"targets":[{"name":"a","parents":["a"]}]}
    ensures cyclic { IsFirstFault
        (object (member (codes "targets") (array (item
        (object (member (codes "name") (string (codes "a"))
        (member (codes "parents") (array (item (string (codes "a")) no_items)) no_members)))
        no_items)) no_members))
        (SettingsFault.Targets CyclicTargets) }
{}
