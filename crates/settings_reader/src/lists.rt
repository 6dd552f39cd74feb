//! The lists of the settings.

ghost use Rattle.std.specs.Prelude.{◌≡◌, IfOk};
ghost use Rattle.settings_reader.specs.Lists.{pair_of, compiler_pairs};

use graph_core::Compiler;
use json_readers::{
    AnyText, JsonFault, ListOf, Reader, Text, distinct, known, may, need, not_empty,
};
use json_texts::{Name, PlainValue, VersionText};
use plain_data::{Duplicate, List, Word};
use serde_json::Value;
use site_settings::CompilerEntry;
use std::alloc::{AllocError, Global};
use target_table::TargetEntry;

/// The operating systems.
#[derive(Clone, Copy)]
pub(crate) struct OsList;

impl Reader<List<Word>> for OsList {
    ghost use Rattle.settings_reader.specs.Lists.{os_list};

    ghost reads = { λ _. os_list };

    #[tactic(auto, unfolding(crate::specs::Lists::os_list))]
    fn read(&self, alloc: Global, value: &Value) -> Result<List<Word>, JsonFault> {
        let names = ListOf(Text(PlainValue)).read(alloc, value)?;
        not_empty(alloc, &names)?;
        distinct(alloc, names.duplicate(alloc)?.into_vec())?;
        Ok(names)
    }
}

/// A target.
#[derive(Clone, Copy)]
pub(crate) struct TargetForm;

impl Reader<TargetEntry> for TargetForm {
    ghost use Rattle.settings_reader.specs.Lists.{target_at};

    ghost reads = { λ _. target_at };

    #[tactic(auto, unfolding(crate::specs::Lists::target_at))]
    fn read(&self, alloc: Global, value: &Value) -> Result<TargetEntry, JsonFault> {
        let members = known(alloc, value, &["name", "parents"])?;
        let name = need(alloc, members, "name", &Text(PlainValue))?;
        let parents = need(alloc, members, "parents", &ListOf(Text(PlainValue)))?;
        Ok(TargetEntry { name, parents })
    }
}

/// The targets.
#[derive(Clone, Copy)]
pub(crate) struct TargetList;

impl Reader<List<TargetEntry>> for TargetList {
    ghost use Rattle.settings_reader.specs.Lists.{target_list};

    ghost reads = { λ _. target_list };

    #[tactic(auto, unfolding(crate::specs::Lists::target_list))]
    fn read(&self, alloc: Global, value: &Value) -> Result<List<TargetEntry>, JsonFault> {
        let entries = ListOf(TargetForm).read(alloc, value)?;
        not_empty(alloc, &entries)?;
        Ok(entries)
    }
}

/// A compiler.
#[derive(Clone, Copy)]
pub(crate) struct CompilerForm;

impl Reader<CompilerEntry> for CompilerForm {
    ghost use Rattle.settings_reader.specs.Lists.{compiler_entry_at};

    ghost reads = { λ _. compiler_entry_at };

    #[tactic(auto, unfolding(crate::specs::Lists::compiler_entry_at))]
    fn read(&self, alloc: Global, value: &Value) -> Result<CompilerEntry, JsonFault> {
        let members = known(alloc, value, &["name", "os", "targets", "version"])?;
        let name = need(alloc, members, "name", &Text(Name))?;
        let version = need(alloc, members, "version", &VersionText)?;
        let os = may(alloc, members, "os", &ListOf(Text(AnyText)))?;
        let targets = may(alloc, members, "targets", &ListOf(Text(AnyText)))?;
        Ok(CompilerEntry {
            compiler: Compiler { name, version },
            os,
            targets,
        })
    }
}

/// The compilers.
#[derive(Clone, Copy)]
pub(crate) struct CompilerList;

impl Reader<List<CompilerEntry>> for CompilerList {
    ghost use Rattle.settings_reader.specs.Lists.{compiler_list};

    ghost reads = { λ _. compiler_list };

    #[tactic(auto, unfolding(crate::specs::Lists::compiler_list))]
    fn read(&self, alloc: Global, value: &Value) -> Result<List<CompilerEntry>, JsonFault> {
        let entries = ListOf(CompilerForm).read(alloc, value)?;
        not_empty(alloc, &entries)?;
        distinct(alloc, pairs_of(alloc, entries.as_slice())?)?;
        Ok(entries)
    }
}

fn pairs_of(alloc: Global, entries: &[CompilerEntry]) -> Result<Vec<(Word, Word)>, AllocError>
    ensures { IfOk result (λ pairs. pairs.items ≡ compiler_pairs entries.now) }
{
    let mut pairs = Vec::with_capacity(alloc, entries.len())?;
    for entry in entries {
        pairs.push(pair_of(alloc, &entry.compiler)?)?;
    }
    Ok(pairs)
}

fn pair_of(alloc: Global, compiler: &Compiler) -> Result<(Word, Word), AllocError>
    ensures { IfOk result (λ pair. pair ≡ pair_of compiler.now) }
{
    let name = compiler.name.duplicate(alloc)?;
    let version = Word::new(alloc, compiler.version.text())?;
    Ok((name, version))
}

/// Some texts.
#[derive(Clone, Copy)]
pub(crate) struct TextList;

impl Reader<List<Word>> for TextList {
    ghost use Rattle.settings_reader.specs.Lists.{text_list};

    ghost reads = { λ _. text_list };

    #[tactic(auto, unfolding(crate::specs::Lists::text_list))]
    fn read(&self, alloc: Global, value: &Value) -> Result<List<Word>, JsonFault> {
        let texts = ListOf(Text(AnyText)).read(alloc, value)?;
        not_empty(alloc, &texts)?;
        Ok(texts)
    }
}

/// The packages that provide a virtual one.
#[derive(Clone, Copy)]
pub(crate) struct ProviderList;

impl Reader<List<Word>> for ProviderList {
    ghost use Rattle.settings_reader.specs.Lists.{provider_list};

    ghost reads = { λ _. provider_list };

    #[tactic(auto, unfolding(crate::specs::Lists::provider_list))]
    fn read(&self, alloc: Global, value: &Value) -> Result<List<Word>, JsonFault> {
        let names = ListOf(Text(Name)).read(alloc, value)?;
        distinct(alloc, names.duplicate(alloc)?.into_vec())?;
        Ok(names)
    }
}
