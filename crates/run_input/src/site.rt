//! The reading of settings.

ghost use Rattle.std.specs.Prelude.{◌≡◌, ◌≤◌, ◌^◌, true, length, IfOk, IfSome};
ghost use Rattle.settings_reader.specs.Values.{are_valued};
ghost use Rattle.problem.specs.Limits.{are_small};
ghost use Rattle.run_answers.specs.Reads.{OnlyReads};
ghost use Rattle.run_answers.specs.Stops.{Gives, EndsInReadFault};
ghost use Rattle.run_words.specs.Words.{is_dash_path};
ghost use Rattle.run_input.specs.Named.{FailsThere};
ghost use Rattle.run_input.specs.Sites.{SettingsIn, SettingsAt};

use crate::{ReadSettings, WholeFile, read_bytes};
use file_limits::settings_count_laws;
use outside_desk::Desk;
use run_answers::{ReadStop, Refusal};
use run_words::is_dash;
use settings_reader::{SettingsFault, read_settings, settings_laws};
use site_settings::Settings;
use std::alloc::Global;

/// The settings that the bytes of a file say.
fn settings_in(alloc: Global, bytes: &[u8]) -> Result<Settings, ReadStop>
    requires { length bytes.now ≤ 2 ^ 24 }
    ensures read { Gives result (SettingsIn bytes.now) }
    ensures values { IfOk result (λ settings. are_valued settings ≡ true) }
    ensures small { IfOk result (λ settings. are_small settings ≡ true) }
    ensures no_fault { EndsInReadFault result → ⊥ }
{
    settings_laws();
    settings_count_laws();
    match read_settings(alloc, bytes) {
        Ok(settings) => Ok(settings),
        Err(SettingsFault::OutOfMemory) => Err(ReadStop::NoMemory),
        Err(fault) => Err(ReadStop::Refused(Refusal::BadSettings(fault))),
    }
}

/// The settings that a path names: those of the file there, or the standard ones where the path is
/// `-`.
///
/// # Errors
///
/// `MissingInput` where there is no such file, `SettingsTooLarge` beyond 16 MiB, `BadSettings` with
/// the first fault of the text. `Fault` where the desk failed, with the path.
pub fn read_site<D: Desk>(alloc: Global, desk: &mut D, path: &str) -> Result<ReadSettings, ReadStop>
    ensures read { IfSome (D.files desk.new) (λ files. Gives result (SettingsAt files path.now)) }
    ensures path { FailsThere path.now result }
    ensures only_reads { OnlyReads D.files D.faults D.put_faults desk.old desk.new result }
{
    settings_count_laws();
    if is_dash(path) {
        return Ok(ReadSettings::new(Settings::standard(alloc)?));
    }
    let bytes = read_bytes(alloc, desk, path, WholeFile::Settings)?;
    let settings = settings_in(alloc, bytes.as_slice())?;
    Ok(ReadSettings::new(settings))
}
