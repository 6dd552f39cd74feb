//! What the ends of ranges allow.

ghost use Rattle.std.specs.Prelude.{◌≡◌};
ghost use Rattle.std.specs.Option.{option_copied};
ghost use Rattle.version_order.specs.Sets.{is_under, low_allows, high_allows, reaches};

use crate::Version;

/// Whether a version is not above a high end, or has it as a prefix.
#[tactic(auto, unfolding(crate::specs::Sets::is_under))]
fn is_under(version: &Version, high: &Version) -> bool
    ensures { result ≡ is_under version.now high.now }
{
    version.compare(high).is_le() || high.is_prefix(version)
}

/// Whether a low end is not above a version. An end that is not written asks nothing.
pub(crate) fn low_allows(low: &Option<Version>, version: &Version) -> bool
    ensures { result ≡ low_allows low.now version.now }
{
    match low {
        Some(low) => low.compare(version).is_le(),
        None => true,
    }
}

/// Whether a version is not above a high end, or has it as a prefix. An end that is not written asks
/// nothing.
pub(crate) fn high_allows(high: &Option<Version>, version: &Version) -> bool
    ensures { result ≡ high_allows high.now version.now }
{
    match high {
        Some(high) => is_under(version, high),
        None => true,
    }
}

/// Whether a low end is not above a high end, or has it as a prefix. An end that is not written never
/// forbids.
pub(crate) fn reaches(low: Option<&Version>, high: Option<&Version>) -> bool
    ensures { result ≡ reaches (option_copied low.entry) (option_copied high.entry) }
{
    match (low, high) {
        (Some(low), Some(high)) => is_under(low, high),
        _ => true,
    }
}
