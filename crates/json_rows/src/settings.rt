//! What settings are read as, as one line of text.

use graph_core::Compiler;
use plain_data::{List, Word};
use settings_reader::{SettingsFault, read_settings};
use site_settings::{CompilerEntry, ExternalEntry, PackageEntry, RequireEntry, Settings};
use spec_grammar::{Spec, write_spec};
use std::alloc::{AllocError, Global};
use target_table::TargetEntry;
use variant_values::ValueSet;
use version_order::VersionSet;

type Shown = Result<(), AllocError>;

/// What a file is read as: its settings, or its fault.
pub(crate) fn answer_text(alloc: Global, bytes: &[u8]) -> Result<String, AllocError> {
    match read_settings(alloc, bytes) {
        Ok(settings) => settings_text(alloc, &settings),
        Err(fault) => fault_text(alloc, &fault),
    }
}

/// The same, but of settings only that they are some.
pub(crate) fn short_text(alloc: Global, bytes: &[u8]) -> Result<String, AllocError> {
    match read_settings(alloc, bytes) {
        Ok(_) => String::from_str(alloc, "settings"),
        Err(fault) => fault_text(alloc, &fault),
    }
}

/// The standard settings.
pub(crate) fn standard_text(alloc: Global) -> Result<String, AllocError> {
    let settings = Settings::standard(alloc)?;
    settings_text(alloc, &settings)
}

fn fault_text(alloc: Global, fault: &SettingsFault) -> Result<String, AllocError> {
    match fault {
        SettingsFault::NotJson => String::from_str(alloc, "NotJson"),
        SettingsFault::UnknownKey(at) => format!(in alloc; "UnknownKey {at}"),
        SettingsFault::WrongKind(at) => format!(in alloc; "WrongKind {at}"),
        SettingsFault::Empty(at) => format!(in alloc; "Empty {at}"),
        SettingsFault::TwiceNamed(at) => format!(in alloc; "TwiceNamed {at}"),
        SettingsFault::Targets(fault) => format!(in alloc; "Targets {fault:?}"),
        SettingsFault::Spec(at, fault) => format!(in alloc; "Spec {at} {fault:?}"),
        SettingsFault::BadExternal(at) => format!(in alloc; "BadExternal {at}"),
        SettingsFault::OutOfMemory => String::from_str(alloc, "OutOfMemory"),
    }
}

fn settings_text(alloc: Global, settings: &Settings) -> Result<String, AllocError> {
    let platform = &settings.platform;
    let budget = settings.conflict_budget;
    let mut out = format!(in alloc; "platform {platform} budget {budget} os")?;
    push_words(&mut out, &settings.os)?;
    for target in settings.targets.entries() {
        push_target(&mut out, target)?;
    }
    for compiler in settings.compilers.as_slice() {
        push_compiler_entry(&mut out, compiler)?;
    }
    for (name, packages) in settings.providers.as_slice() {
        push_named(&mut out, " provider ", name)?;
        push_words(&mut out, packages)?;
    }
    if settings.provided_together {
        out.push_str(" together")?;
    }
    for package in settings.packages.as_slice() {
        push_package(alloc, &mut out, package)?;
    }
    Ok(out)
}

fn push_named(out: &mut String, what: &str, name: &Word) -> Shown {
    out.push_str(what)?;
    out.push_str(name.as_str())
}

fn push_words(out: &mut String, words: &List<Word>) -> Shown {
    for word in words.as_slice() {
        push_named(out, " ", word)?;
    }
    Ok(())
}

fn push_target(out: &mut String, target: &TargetEntry) -> Shown {
    push_named(out, " target ", &target.name)?;
    for parent in target.parents.as_slice() {
        push_named(out, "<", parent)?;
    }
    Ok(())
}

fn push_compiler(out: &mut String, compiler: &Compiler) -> Shown {
    push_named(out, " compiler ", &compiler.name)?;
    out.push_str("@")?;
    out.push_str(compiler.version.text())
}

fn push_compiler_entry(out: &mut String, entry: &CompilerEntry) -> Shown {
    push_compiler(out, &entry.compiler)?;
    push_support(out, " for_os", &entry.os)?;
    push_support(out, " for_targets", &entry.targets)
}

fn push_support(out: &mut String, what: &str, names: &Option<List<Word>>) -> Shown {
    match names {
        Some(names) => {
            out.push_str(what)?;
            push_words(out, names)
        }
        None => Ok(()),
    }
}

fn push_package(alloc: Global, out: &mut String, package: &PackageEntry) -> Shown {
    push_named(out, " package ", &package.name)?;
    for versions in package.versions.as_slice() {
        push_versions(alloc, out, versions)?;
    }
    if !package.buildable {
        out.push_str(" not_buildable")?;
    }
    for external in package.externals.as_slice() {
        push_external(out, external)?;
    }
    for entry in package.require.as_slice() {
        push_required(alloc, out, entry)?;
    }
    Ok(())
}

fn push_required(alloc: Global, out: &mut String, entry: &RequireEntry) -> Shown {
    out.push_str(if entry.one_of { " one_of" } else { " any_of" })?;
    push_specs(alloc, out, entry.specs.as_slice())?;
    out.push_str(" when")?;
    push_specs(alloc, out, entry.when.specs.as_slice())
}

fn push_specs(alloc: Global, out: &mut String, specs: &[Spec]) -> Shown {
    for spec in specs {
        push_spec(alloc, out, spec)?;
    }
    Ok(())
}

fn push_spec(alloc: Global, out: &mut String, spec: &Spec) -> Shown {
    let text = write_spec(alloc, spec)?;
    out.push_str(" [")?;
    match str::from_utf8(text.as_slice()) {
        Ok(text) => out.push_str(text)?,
        Err(_) => out.push_str("?")?,
    }
    out.push_str("]")
}

fn push_versions(alloc: Global, out: &mut String, versions: &VersionSet) -> Shown {
    let mut text = Vec::new(alloc);
    versions.write(&mut text)?;
    out.push_str(" @")?;
    match str::from_utf8(text.as_slice()) {
        Ok(text) => out.push_str(text),
        Err(_) => out.push_str("?"),
    }
}

fn push_external(out: &mut String, external: &ExternalEntry) -> Shown {
    out.push_str(" external @")?;
    out.push_str(external.version.text())?;
    for (name, values) in external.variants.as_slice() {
        push_variant(out, name, values)?;
    }
    if let Some(compiler) = &external.compiler {
        push_compiler(out, compiler)?;
    }
    push_maybe(out, " os ", &external.os)?;
    push_maybe(out, " target ", &external.target)?;
    push_named(out, " prefix ", &external.prefix)
}

fn push_variant(out: &mut String, name: &Word, values: &ValueSet) -> Shown {
    push_named(out, " ", name)?;
    for value in values.values() {
        push_named(out, "=", value)?;
    }
    Ok(())
}

fn push_maybe(out: &mut String, what: &str, word: &Option<Word>) -> Shown {
    match word {
        Some(word) => push_named(out, what, word),
        None => Ok(()),
    }
}
