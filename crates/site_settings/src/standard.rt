//! The standard settings, key by key.

ghost use Rattle.std.specs.Prelude.{◌≡◌, IfOk, [], ◌∷◌, codes};
ghost use Rattle.target_table.specs.Targets.{IsTargetFault};
ghost use Rattle.site_settings.specs.Standard.{platform, conflict_budget, os, standard, targets};
ghost use Rattle.site_settings.specs.Standard.{compilers, provided_together};

use crate::{CompilerEntry, Settings};
use graph_core::{Compiler, Version, VersionFault, reading_laws};
use plain_data::{List, Word};
use std::alloc::{AllocError, Global};
use target_table::{TargetEntry, TargetFault, TargetTable, fault_laws};

impl Settings {
    /// The settings of a site that says nothing.
    pub fn standard(alloc: Global) -> Result<Settings, AllocError>
        ensures { IfOk result (λ settings. settings ≡ standard) }
    {
        Ok(Settings {
            platform: platform(alloc)?,
            conflict_budget: conflict_budget(),
            os: os(alloc)?,
            targets: table(alloc)?,
            compilers: compilers(alloc)?,
            providers: List::new(alloc),
            provided_together: provided_together(),
            packages: List::new(alloc),
        })
    }
}

/// `linux`
pub fn platform(alloc: Global) -> Result<Word, AllocError>
    ensures { IfOk result (λ word. word ≡ platform) }
{
    Word::new(alloc, "linux")
}

/// More clauses than a search could learn: 2^64 - 1.
pub fn conflict_budget() -> u64
    ensures { result ≡ conflict_budget }
{
    u64::MAX
}

/// Each virtual by itself.
pub fn provided_together() -> bool
    ensures { result ≡ provided_together }
{
    false
}

/// `ubuntu22.04`
pub fn os(alloc: Global) -> Result<List<Word>, AllocError>
    ensures { IfOk result (λ names. names ≡ os) }
{
    let name = Word::new(alloc, "ubuntu22.04")?;
    let mut names = List::new(alloc);
    names.push(name)?;
    Ok(names)
}

/// `x86_64`
pub fn targets(alloc: Global) -> Result<List<TargetEntry>, AllocError>
    ensures { IfOk result (λ entries. entries ≡ targets) }
{
    let name = Word::new(alloc, "x86_64")?;
    let mut entries = List::new(alloc);
    entries.push(TargetEntry {
        name,
        parents: List::new(alloc),
    })?;
    Ok(entries)
}

/// `gcc` 12.3.0 for everything
pub fn compilers(alloc: Global) -> Result<List<CompilerEntry>, AllocError>
    ensures { IfOk result (λ entries. entries ≡ compilers) }
{
    let name = Word::new(alloc, "gcc")?;
    let version = compiler_version(alloc)?;
    let mut entries = List::new(alloc);
    entries.push(CompilerEntry {
        compiler: Compiler { name, version },
        os: None,
        targets: None,
    })?;
    Ok(entries)
}

/// The version of the standard compiler.
fn compiler_version(alloc: Global) -> Result<Version, AllocError>
    ensures { IfOk result (λ version. version ≡ codes "12.3.0") }
{
    reading_laws();
    match Version::read(alloc, "12.3.0") {
        Ok(version) => Ok(version),
        Err(VersionFault::OutOfMemory) => Err(AllocError),
        Err(_) => unreachable!(),
    }
}

/// The table of the standard targets.
fn table(alloc: Global) -> Result<TargetTable, AllocError>
    ensures { IfOk result (λ table. table ≡ targets) }
{
    match TargetTable::new(alloc, targets(alloc)?) {
        Ok(table) => Ok(table),
        Err(fault) => Err(want_of_memory(fault)),
    }
}

/// The standard targets are a table, so only memory can be wanting.
fn want_of_memory(fault: TargetFault) -> AllocError
    requires { IsTargetFault targets fault }
{
    fault_laws();
    match fault {
        TargetFault::OutOfMemory => AllocError,
        _ => unreachable!(),
    }
}
