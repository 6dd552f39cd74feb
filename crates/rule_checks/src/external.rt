//! The node of an external, in which what is not written is completed.
ghost use Rattle.std.specs.Prelude.{◌≡◌, [], ◌++◌, Some, IfOk, OnOk, find, map, unwrap_or};
ghost use Rattle.std.specs.Prelude.{if◌then◌else◌};
ghost use Rattle.std.specs.Option.{option_copied};
ghost use Rattle.std.specs.Str.{bytes_eq};
ghost use Rattle.variant_values.specs.Texts.{with_texts};
ghost use Rattle.condition_rules.specs.Words.{find_last};
ghost use Rattle.graph_rules.specs.Kept.{completed, default_in, external_node, first_text};

use graph_core::{Compiler, Node, Origin};
use plain_data::{Duplicate, List, Word};
use problem::{Problem, names_of, variants_at};
use recipe_data::VariantRow;
use site_settings::ExternalEntry;
use std::alloc::{AllocError, Global};
use target_table::TargetEntry;
use variant_values::ValueSet;
use version_order::Version;

fn written_in<'a>(written: &'a [(Word, ValueSet)], name: &str) -> Option<&'a (Word, ValueSet)>
    ensures { option_copied result ≡ find (λ v. bytes_eq v.0 name.now) written.now }
{
    written.iter().find(|v| v.0.as_str() == name)
}

// The row where it has the name, and else what was found before.
fn later<'a>(
    row: &'a VariantRow,
    name: &str,
    last: Option<&'a VariantRow>,
) -> Option<&'a VariantRow>
    ensures { option_copied result
        ≡ (if bytes_eq row.now.name name.now then Some row.now else option_copied last.entry) }
{
    if row.name.as_str() == name {
        Some(row)
    } else {
        last
    }
}

fn last_named<'a>(rows: &'a [VariantRow], name: &str) -> Option<&'a VariantRow>
    ensures { option_copied result ≡ find_last (λ row. bytes_eq row.name name.now) rows.now }
{
    let mut last = None;
    for row in rows {
        last = later(row, name, last);
    }
    last
}

fn default_in(alloc: Global, row: Option<&VariantRow>) -> Result<ValueSet, AllocError>
    ensures { IfOk result (λ values. values ≡ default_in (option_copied row.entry)) }
{
    match row {
        Some(row) => row.default.duplicate(alloc),
        None => Ok(ValueSet::new(alloc)),
    }
}

// What is written, and else the default of the last definition of the name.
fn completed(
    alloc: Global,
    written: &[(Word, ValueSet)],
    rows: &[VariantRow],
    name: &str,
) -> Result<ValueSet, AllocError>
    ensures { IfOk result (λ values. values ≡ completed written.now rows.now name.now) }
{
    match written_in(written, name) {
        Some(v) => v.1.duplicate(alloc),
        None => default_in(alloc, last_named(rows, name)),
    }
}

fn add_names(alloc: Global, names: &mut Vec<Word>, rows: &[VariantRow]) -> Result<(), AllocError>
    ensures { OnOk result (names.new.items ≡ names.old.items ++ map (λ row. row.name) rows.now) }
{
    for row in rows {
        names.push(row.name.duplicate(alloc)?)?;
    }
    Ok(())
}

// The names that are written or defined, in byte order, each once.
fn variant_names(
    alloc: Global,
    written: &[(Word, ValueSet)],
    rows: &[VariantRow],
) -> Result<ValueSet, AllocError>
    ensures { IfOk result (λ names. names
        ≡ with_texts [] (map (λ v. v.0) written.now ++ map (λ row. row.name) rows.now)) }
{
    let mut names = names_of(alloc, written)?;
    add_names(alloc, &mut names, rows)?;
    Ok(ValueSet::from_words(names))
}

/// Each of these variants with the values of an external's completed entry.
fn completed_each(
    alloc: Global,
    written: &[(Word, ValueSet)],
    rows: &[VariantRow],
    names: &[Word],
) -> Result<List<(Word, ValueSet)>, AllocError>
    ensures { IfOk result (λ variants. variants
        ≡ map (λ v. (v, completed written.now rows.now v)) names.now) }
{
    let mut variants = List::new(alloc);
    for name in names {
        let values = completed(alloc, written, rows, name.as_str())?;
        variants.push((name.duplicate(alloc)?, values))?;
    }
    Ok(variants)
}

fn completed_all(
    alloc: Global,
    written: &[(Word, ValueSet)],
    rows: &[VariantRow],
) -> Result<List<(Word, ValueSet)>, AllocError>
    ensures { IfOk result (λ variants. variants ≡ map (λ v. (v, completed written.now rows.now v))
        (with_texts [] (map (λ v. v.0) written.now ++ map (λ row. row.name) rows.now))) }
{
    let names = variant_names(alloc, written, rows)?;
    completed_each(alloc, written, rows, names.values())
}

fn first_text(alloc: Global, texts: &[Word]) -> Result<Word, AllocError>
    ensures { IfOk result (λ text. text ≡ first_text texts.now) }
{
    match texts {
        [] => Word::new(alloc, ""),
        [first, ..] => first.duplicate(alloc),
    }
}

fn first_target(alloc: Global, entries: &[TargetEntry]) -> Result<Word, AllocError>
    ensures { IfOk result (λ text. text ≡ first_text (map (λ t. t.name) entries.now)) }
{
    match entries {
        [] => Word::new(alloc, ""),
        [first, ..] => first.name.duplicate(alloc),
    }
}

fn os_of(alloc: Global, problem: &Problem, written: &Option<Word>) -> Result<Word, AllocError>
    ensures { IfOk result (λ text. text ≡ unwrap_or written.now
        (first_text problem.now.settings.os)) }
{
    match written {
        Some(word) => word.duplicate(alloc),
        None => first_text(alloc, problem.settings().os.as_slice()),
    }
}

fn target_of(alloc: Global, problem: &Problem, written: &Option<Word>) -> Result<Word, AllocError>
    ensures { IfOk result (λ text. text ≡ unwrap_or written.now
        (first_text (map (λ t. t.name) problem.now.settings.targets))) }
{
    match written {
        Some(word) => word.duplicate(alloc),
        None => first_target(alloc, problem.settings().targets.entries()),
    }
}

fn named(alloc: Global, name: &Word, entry: &ExternalEntry) -> Result<(Word, Version), AllocError>
    ensures { IfOk result (λ named. named ≡ (name.now, entry.now.version)) }
{
    let name = name.duplicate(alloc)?;
    let version = entry.version.duplicate(alloc)?;
    Ok((name, version))
}

fn platform_of(
    alloc: Global,
    problem: &Problem,
    entry: &ExternalEntry,
) -> Result<(Word, Word), AllocError>
    ensures { IfOk result (λ words. words ≡ (
      unwrap_or entry.now.os (first_text
          problem.now.settings.os),
      unwrap_or entry.now.target
          (first_text (map (λ t. t.name) problem.now.settings.targets)),
    )) }
{
    let os = os_of(alloc, problem, &entry.os)?;
    let target = target_of(alloc, problem, &entry.target)?;
    Ok((os, target))
}

fn chosen_of(alloc: Global, entry: &ExternalEntry) -> Result<(Option<Compiler>, Word), AllocError>
    ensures { IfOk result (λ chosen. chosen ≡ (entry.now.compiler, entry.now.prefix)) }
{
    let compiler = entry.compiler.duplicate(alloc)?;
    let prefix = entry.prefix.duplicate(alloc)?;
    Ok((compiler, prefix))
}

/// The node of an entry of the settings, in which what is not written is completed.
// Its parts are copied in steps, since each copy that fails drops all before it.
#[tactic(auto, unfolding(graph_rules::specs::Kept::external_node))]
pub fn external_node(
    alloc: Global,
    problem: &Problem,
    name: &Word,
    place: u64,
    entry: &ExternalEntry,
) -> Result<Node, AllocError>
    ensures { IfOk result (λ node. node ≡ external_node problem.now name.now place entry.now) }
{
    let rows = variants_at(problem, name.as_str());
    let variants = completed_all(alloc, entry.variants.as_slice(), rows)?;
    let (name, version) = named(alloc, name, entry)?;
    let (os, target) = platform_of(alloc, problem, entry)?;
    let (compiler, prefix) = chosen_of(alloc, entry)?;
    Ok(Node {
        name,
        version,
        variants,
        compiler,
        os,
        target,
        prefix: Some(prefix),
        origin: Origin::External(place),
    })
}
