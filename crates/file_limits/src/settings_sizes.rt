//! What holds of all files of settings. The body is empty but for the laws below: what is proved is
//! the contract.

ghost use Rattle.file_limits.specs.SettingsSizes.{FilesBearSettings, FilesAreSmall};
ghost use Rattle.file_limits.specs.SettingsSizes.{StandardIsSmall};

use crate::{count_laws, spec_count_laws};

/// The OSs, targets, compilers, names in lists of providers, externals, variant values of externals
/// and requirements of packages that a file says, two bytes for each, are at most as many as the
/// file has bytes, and the standard ones. So those of a file of at most 2^24 bytes are within the
/// limits of a problem, and so are the standard ones.
pub fn settings_count_laws()
    ensures bear { FilesBearSettings }
    ensures within { FilesAreSmall }
    ensures standard { StandardIsSmall }
{
    count_laws();
    spec_count_laws();
}
