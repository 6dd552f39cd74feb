//! What is said of packages.

ghost use Rattle.std.specs.Prelude.{◌≡◌, option_map, codes};
ghost use Rattle.serde_json.specs.View.{view, members_view};
ghost use Rattle.settings_reader.specs.Told.{Below, Tells};
ghost use Rattle.settings_reader.specs.Parsed.{IsOptional};
ghost use Rattle.settings_reader.specs.Packages.{AreEntries, ArePackages, ArePackagesAt, IsPackage};

use crate::external::ExternalForm;
use crate::parser::list_at;
use crate::required::required_at;
use crate::stop::{Stop, below};
use crate::versions::SetText;
use json_readers::{TruthValue, known, may, member, named};
use json_texts::Name;
use plain_data::{List, Word};
use serde_json::{Map, Value};
use site_settings::PackageEntry;
use std::alloc::Global;

/// The packages of the settings, whose platform is given.
pub(crate) fn packages_at(
    alloc: Global,
    members: &Map<String, Value>,
    platform: &str,
) -> Result<List<PackageEntry>, Stop>
    ensures { Tells result (ArePackagesAt platform.now (members_view members.now.entries)) }
{
    below(
        alloc,
        "packages",
        parse_optional(alloc, member(members, "packages"), platform),
    )
}

fn parse_optional(
    alloc: Global,
    value: Option<&Value>,
    platform: &str,
) -> Result<List<PackageEntry>, Stop>
    ensures { Tells result
        (IsOptional (ArePackages platform.now) (option_map (λ v. view v.now) value.entry)) }
{
    match value {
        Some(value) => parse_packages(alloc, value, platform),
        None => Ok(List::new(alloc)),
    }
}

fn parse_packages(alloc: Global, value: &Value, platform: &str) -> Result<List<PackageEntry>, Stop>
    ensures { Tells result (ArePackages platform.now (view value.now)) }
{
    let members = named(alloc, value, &Name)?;
    parse_entries(alloc, members, platform)
}

fn parse_entries(
    alloc: Global,
    members: &Map<String, Value>,
    platform: &str,
) -> Result<List<PackageEntry>, Stop>
    ensures { Tells result (AreEntries platform.now (members_view members.now.entries)) }
{
    let mut packages = List::new(alloc);
    for (key, value) in members.iter() {
        packages.push(parse_entry(alloc, key.as_str(), platform, value)?)?;
    }
    Ok(packages)
}

fn parse_entry(
    alloc: Global,
    name: &str,
    platform: &str,
    value: &Value,
) -> Result<PackageEntry, Stop>
    ensures { Tells result (Below name.now (IsPackage name.now platform.now (view value.now))) }
{
    below(alloc, name, parse_package(alloc, name, platform, value))
}

/// What is said of one package; without `buildable` it may be built.
fn parse_package(
    alloc: Global,
    name: &str,
    platform: &str,
    value: &Value,
) -> Result<PackageEntry, Stop>
    ensures { Tells result (IsPackage name.now platform.now (view value.now)) }
{
    let members = known(
        alloc,
        value,
        &["buildable", "externals", "require", "versions"],
    )?;
    let versions = list_at(alloc, members, "versions", &SetText)?;
    let buildable = may(alloc, members, "buildable", &TruthValue)?;
    let externals = list_at(
        alloc,
        members,
        "externals",
        &ExternalForm { name, platform },
    )?;
    let require = required_at(alloc, members)?;
    Ok(PackageEntry {
        name: Word::new(alloc, name)?,
        versions,
        buildable: buildable.unwrap_or(true),
        externals,
        require,
    })
}
