//! Externals.

ghost use Rattle.std.specs.Prelude.{◌≡◌, IfOk, Ok, codes};
ghost use Rattle.serde_json.specs.View.{view};
ghost use Rattle.settings_reader.specs.Told.{Below, Tells};
ghost use Rattle.settings_reader.specs.Externals.{IsDescribed, IsExternal, compiler_in};
ghost use Rattle.settings_reader.specs.Externals.{described_of, is_alone, is_that_word, only_described};
ghost use Rattle.settings_reader.specs.Externals.{parts_of, target_in, single_target_of, single_version_in};
ghost use Rattle.settings_reader.specs.Externals.{with_prefix};

use crate::parser::Parser;
use crate::stop::{Stop, What, at_root, below};
use graph_core::Compiler;
use json_readers::{AnyText, Text, known, need};
use plain_data::{Duplicate, List, Word};
use serde_json::Value;
use site_settings::ExternalEntry;
use spec_grammar::{Spec, SpecFault, TargetItem, read_specs};
use std::alloc::{AllocError, Global};
use variant_values::ValueSet;
use version_order::{Version, VersionSet};

/// An external of a package.
#[derive(Clone, Copy)]
pub(crate) struct ExternalForm<'a> {
    pub name: &'a str,
    pub platform: &'a str,
}

/// What the spec of an external says.
#[derive(Drop)]
pub(crate) struct Described {
    pub version: Version,
    pub variants: List<(Word, ValueSet)>,
    pub compiler: Option<Compiler>,
    pub os: Option<Word>,
    pub target: Option<Word>,
}

impl<'a> Parser<ExternalEntry> for ExternalForm<'a> {
    ghost tells = { λ form. IsExternal form.name.now form.platform.now };

    fn parse(&self, alloc: Global, value: &Value) -> Result<ExternalEntry, Stop> {
        parse_external(alloc, self.name, self.platform, value)
    }
}

fn parse_external(
    alloc: Global,
    name: &str,
    platform: &str,
    value: &Value,
) -> Result<ExternalEntry, Stop>
    ensures { Tells result (IsExternal name.now platform.now (view value.now)) }
{
    let members = known(alloc, value, &["prefix", "spec"])?;
    let text = need(alloc, members, "spec", &Text(AnyText))?;
    let described = parse_spec(alloc, name, platform, text.as_str())?;
    let prefix = need(alloc, members, "prefix", &Text(AnyText))?;
    Ok(with_prefix(described, prefix))
}

/// An external with what its spec says, and where it stands.
fn with_prefix(described: Described, prefix: Word) -> ExternalEntry
    ensures { result ≡ with_prefix described prefix }
{
    let Described {
        version,
        variants,
        compiler,
        os,
        target,
    } = described;
    ExternalEntry {
        version,
        variants,
        compiler,
        os,
        target,
        prefix,
    }
}

fn parse_spec(alloc: Global, name: &str, platform: &str, text: &str) -> Result<Described, Stop>
    ensures { Tells result (Below (codes "spec") (IsDescribed name.now platform.now text.now)) }
{
    below(alloc, "spec", describe(alloc, name, platform, text))
}

/// What a text says of an external.
fn describe(alloc: Global, name: &str, platform: &str, text: &str) -> Result<Described, Stop>
    ensures { Tells result (IsDescribed name.now platform.now text.now) }
{
    match read_specs(alloc, text) {
        Ok(specs) => described_by(alloc, name, platform, specs.as_slice()),
        Err(SpecFault::OutOfMemory) => Err(Stop::OutOfMemory),
        Err(fault) => at_root(alloc, What::Spec(fault)),
    }
}

fn described_by(
    alloc: Global,
    name: &str,
    platform: &str,
    specs: &[Spec],
) -> Result<Described, Stop>
    ensures { Tells result (λ out. out ≡ described_of name.now platform.now (Ok specs.now)) }
{
    match only_described(alloc, name, platform, specs)? {
        Some(described) => Ok(described),
        None => at_root(alloc, What::BadExternal),
    }
}

fn only_described(
    alloc: Global,
    name: &str,
    platform: &str,
    specs: &[Spec],
) -> Result<Option<Described>, AllocError>
    ensures { IfOk result (λ d. d ≡ only_described name.now platform.now specs.now) }
{
    match specs {
        [spec] if is_alone(name, platform, spec) => parts_of(alloc, spec),
        _ => Ok(None),
    }
}

/// Whether a spec is one of this package and platform, without `^`.
fn is_alone(name: &str, platform: &str, spec: &Spec) -> bool
    ensures { result ≡ is_alone name.now platform.now spec.now }
{
    spec.below.is_empty()
        && is_word(&spec.top.name, name)
        && (spec.top.platform.is_none() || is_word(&spec.top.platform, platform))
}

fn is_word(word: &Option<Word>, text: &str) -> bool
    ensures { result ≡ is_that_word word.now text.now }
{
    match word {
        Some(word) => word.as_str() == text,
        None => false,
    }
}

/// What a spec of one node says, and `None` where it leaves the version, the compiler or the target
/// open.
fn parts_of(alloc: Global, spec: &Spec) -> Result<Option<Described>, AllocError>
    ensures { IfOk result (λ d. d ≡ parts_of spec.now.top) }
{
    let top = &spec.top;
    let Some(version) = version_in(alloc, &top.versions)? else {
        return Ok(None);
    };
    let Some(compiler) = compiler_in(alloc, &top.compiler)? else {
        return Ok(None);
    };
    let Some(target) = target_in(alloc, &top.targets)? else {
        return Ok(None);
    };
    let variants = top.variants.duplicate(alloc)?;
    let os = top.os.duplicate(alloc)?;
    Ok(Some(Described {
        version,
        variants,
        compiler,
        os,
        target,
    }))
}

/// The version of a set that is the one item `w` or `=w`.
fn version_in(alloc: Global, versions: &Option<VersionSet>) -> Result<Option<Version>, AllocError>
    ensures { IfOk result (λ version. version ≡ single_version_in versions.now) }
{
    match versions {
        Some(versions) => match versions.single() {
            Some(version) => Ok(Some(version.duplicate(alloc)?)),
            None => Ok(None),
        },
        None => Ok(None),
    }
}

/// The compiler, which may be missing; `None` where its version is left open.
fn compiler_in(
    alloc: Global,
    compiler: &Option<(Word, Option<VersionSet>)>,
) -> Result<Option<Option<Compiler>>, AllocError>
    ensures { IfOk result (λ c. c ≡ compiler_in compiler.now) }
{
    match compiler {
        Some((name, versions)) => match version_in(alloc, versions)? {
            Some(version) => Ok(Some(Some(Compiler {
                name: name.duplicate(alloc)?,
                version,
            }))),
            None => Ok(None),
        },
        None => Ok(Some(None)),
    }
}

/// The target, which may be missing; `None` where more than one is written, or a range.
fn target_in(
    alloc: Global,
    targets: &Option<List<TargetItem>>,
) -> Result<Option<Option<Word>>, AllocError>
    ensures { IfOk result (λ target. target ≡ target_in targets.now) }
{
    match targets {
        Some(items) => target_of(alloc, items.as_slice()),
        None => Ok(Some(None)),
    }
}

fn target_of(alloc: Global, items: &[TargetItem]) -> Result<Option<Option<Word>>, AllocError>
    ensures { IfOk result (λ target. target ≡ single_target_of items.now) }
{
    match items {
        [item] if !item.range => Ok(Some(item.low.duplicate(alloc)?)),
        _ => Ok(None),
    }
}
