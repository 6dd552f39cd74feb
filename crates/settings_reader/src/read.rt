//! The reader of a file of settings.

ghost use Rattle.std.specs.Prelude.{◌≡◌, IfOk, IfErr, Ok};
ghost use Rattle.serde_json.specs.View.{view, members_view};
ghost use Rattle.json_readers.specs.Faults.{Gives};
ghost use Rattle.settings_reader.specs.Told.{Tells};
ghost use Rattle.settings_reader.specs.Order.{head_of, tail_of};
ghost use Rattle.settings_reader.specs.Settings.{IsSettings, IsTable};
ghost use Rattle.settings_reader.specs.Files.{IsFaultOf, IsSettingsFileFault, IsOfFile};

use crate::SettingsFault;
use crate::keys::{
    budget_at, compilers_at, os_at, platform_at, provided_together_at, providers_at, targets_at,
};
use crate::package::packages_at;
use crate::stop::{Stop, What, at_root};
use json_readers::{JsonFault, known, read_json};
use plain_data::{List, Word};
use serde_json::{Map, Value};
use site_settings::{CompilerEntry, Settings};
use std::alloc::Global;
use target_table::{TargetEntry, TargetFault, TargetTable, fault_laws};

/// The settings that a file says: a JSON object, in which a key that is not written has the
/// standard's value. Of a key that is repeated the last value counts.
///
/// # Errors
///
/// `NotJson` where the bytes are no JSON text, or nest lists and objects deeper than 127. Else the
/// first fault: in each object first the least key that it may not have, then its values, key by
/// key, in the order `platform`, `conflict_budget`, `os`, `targets`, `compilers`, `providers`,
/// `provided_together`, `packages`; of a target `name`, `parents`; of a compiler `name`, `version`, `os`, `targets`; of
/// a package `versions`, `buildable`, `externals`, `require`; of an external `spec`, `prefix`; of
/// an item of `require` first that it has one of `any_of` and `one_of`, then `any_of`, `message`,
/// `one_of`, `when`. What is said of a list as a whole comes behind its entries, but for `any_of`
/// and `one_of`: that they are texts, and some, comes first. An object that maps names is read in
/// byte order of them.
pub fn read_settings(alloc: Global, bytes: &[u8]) -> Result<Settings, SettingsFault>
    ensures found { IfOk result (IsOfFile bytes.now) }
    ensures fault { IfErr result (IsSettingsFileFault bytes.now) }
{
    match read_json(alloc, bytes)? {
        Some(value) => read_value(alloc, &value),
        None => Err(SettingsFault::NotJson),
    }
}

fn read_value(alloc: Global, value: &Value) -> Result<Settings, SettingsFault>
    ensures found { IfOk result (λ settings. IsSettings (view value.now) (Ok settings)) }
    ensures fault { IfErr result (IsFaultOf (view value.now)) }
{
    match settings_of(alloc, value) {
        Ok(settings) => Ok(settings),
        Err(stop) => Err(SettingsFault::from(stop)),
    }
}

/// The settings that a value says.
fn settings_of(alloc: Global, value: &Value) -> Result<Settings, Stop>
    ensures { Tells result (IsSettings (view value.now)) }
{
    let keys = [
        "compilers",
        "conflict_budget",
        "os",
        "packages",
        "platform",
        "provided_together",
        "providers",
        "targets",
    ];
    let members = known(alloc, value, &keys)?;
    let head = head_of(alloc, members)?;
    let targets = table_of(alloc, head.targets)?;
    let tail = tail_of(alloc, members)?;
    let packages = packages_at(alloc, members, head.platform.as_str())?;
    Ok(Settings {
        platform: head.platform,
        conflict_budget: head.conflict_budget,
        os: head.os,
        targets,
        compilers: tail.compilers,
        providers: tail.providers,
        provided_together: tail.provided_together,
        packages,
    })
}

/// The keys before `compilers`.
#[derive(Drop)]
pub(crate) struct SettingsHead {
    pub platform: Word,
    pub conflict_budget: u64,
    pub os: List<Word>,
    pub targets: List<TargetEntry>,
}

/// The keys up to `targets`; their table is made before any key behind them is read.
#[tactic(auto, unfolding(crate::specs::Order::head_of))]
fn head_of(alloc: Global, members: &Map<String, Value>) -> Result<SettingsHead, JsonFault>
    ensures { Gives result (head_of (members_view members.now.entries)) }
{
    let platform = platform_at(alloc, members)?;
    let conflict_budget = budget_at(alloc, members)?;
    let os = os_at(alloc, members)?;
    let targets = targets_at(alloc, members)?;
    Ok(SettingsHead {
        platform,
        conflict_budget,
        os,
        targets,
    })
}

/// The keys from `compilers` to `provided_together`.
#[derive(Drop)]
pub(crate) struct Tail {
    pub compilers: List<CompilerEntry>,
    pub providers: List<(Word, List<Word>)>,
    pub provided_together: bool,
}

/// The keys behind `targets`, but for `packages`.
#[tactic(auto, unfolding(crate::specs::Order::tail_of))]
fn tail_of(alloc: Global, members: &Map<String, Value>) -> Result<Tail, JsonFault>
    ensures { Gives result (tail_of (members_view members.now.entries)) }
{
    let compilers = compilers_at(alloc, members)?;
    let providers = providers_at(alloc, members)?;
    let provided_together = provided_together_at(alloc, members)?;
    Ok(Tail {
        compilers,
        providers,
        provided_together,
    })
}

/// The table of the targets.
pub(crate) fn table_of(alloc: Global, entries: List<TargetEntry>) -> Result<TargetTable, Stop>
    ensures { Tells result (IsTable entries) }
{
    fault_laws();
    match TargetTable::new(alloc, entries) {
        Ok(table) => Ok(table),
        Err(TargetFault::OutOfMemory) => Err(Stop::OutOfMemory),
        Err(fault) => at_root(alloc, What::Targets(fault)),
    }
}
