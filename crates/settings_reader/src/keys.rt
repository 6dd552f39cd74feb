//! The keys of the settings but `packages`, each with its standard.

ghost use Rattle.serde_json.specs.View.{members_view};
ghost use Rattle.json_readers.specs.Faults.{Gives};
ghost use Rattle.settings_reader.specs.Keys.{budget_at, compilers_at, os_at, platform_at};
ghost use Rattle.settings_reader.specs.Keys.{provided_together_at, provider_entries_at};
ghost use Rattle.settings_reader.specs.Keys.{target_entries_at};

use crate::lists::{CompilerList, OsList, ProviderList, TargetList};
use json_readers::{JsonFault, KnownMapOf, Text, TruthValue, WholeNumber, may};
use json_texts::{self, Name};
use plain_data::{List, Word};
use serde_json::{Map, Value};
use site_settings::{CompilerEntry, standard};
use std::alloc::Global;
use target_table::TargetEntry;

type Members = Map<String, Value>;

pub(crate) fn platform_at(alloc: Global, members: &Members) -> Result<Word, JsonFault>
    ensures { Gives result (platform_at (members_view members.now.entries)) }
{
    match may(alloc, members, "platform", &Text(json_texts::Value))? {
        Some(platform) => Ok(platform),
        None => Ok(standard::platform(alloc)?),
    }
}

pub(crate) fn budget_at(alloc: Global, members: &Members) -> Result<u64, JsonFault>
    ensures { Gives result (budget_at (members_view members.now.entries)) }
{
    match may(alloc, members, "conflict_budget", &WholeNumber)? {
        Some(budget) => Ok(budget),
        None => Ok(standard::conflict_budget()),
    }
}

pub(crate) fn os_at(alloc: Global, members: &Members) -> Result<List<Word>, JsonFault>
    ensures { Gives result (os_at (members_view members.now.entries)) }
{
    match may(alloc, members, "os", &OsList)? {
        Some(os) => Ok(os),
        None => Ok(standard::os(alloc)?),
    }
}

pub(crate) fn targets_at(alloc: Global, members: &Members) -> Result<List<TargetEntry>, JsonFault>
    ensures { Gives result (target_entries_at (members_view members.now.entries)) }
{
    match may(alloc, members, "targets", &TargetList)? {
        Some(targets) => Ok(targets),
        None => Ok(standard::targets(alloc)?),
    }
}

pub(crate) fn compilers_at(
    alloc: Global,
    members: &Members,
) -> Result<List<CompilerEntry>, JsonFault>
    ensures { Gives result (compilers_at (members_view members.now.entries)) }
{
    match may(alloc, members, "compilers", &CompilerList)? {
        Some(compilers) => Ok(compilers),
        None => Ok(standard::compilers(alloc)?),
    }
}

/// The lists of providers, none where the key is missing.
pub(crate) fn providers_at(
    alloc: Global,
    members: &Members,
) -> Result<List<(Word, List<Word>)>, JsonFault>
    ensures { Gives result (provider_entries_at (members_view members.now.entries)) }
{
    let form = KnownMapOf {
        keys: Name,
        values: ProviderList,
    };
    match may(alloc, members, "providers", &form)? {
        Some(providers) => Ok(providers),
        None => Ok(List::new(alloc)),
    }
}

pub(crate) fn provided_together_at(alloc: Global, members: &Members) -> Result<bool, JsonFault>
    ensures { Gives result (provided_together_at (members_view members.now.entries)) }
{
    match may(alloc, members, "provided_together", &TruthValue)? {
        Some(together) => Ok(together),
        None => Ok(standard::provided_together()),
    }
}
