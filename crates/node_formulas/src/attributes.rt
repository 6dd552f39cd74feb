// The formula of the attributes of a node: the same as those of another, in all but origin.
ghost use Rattle.std.specs.Prelude.{◌≡◌, IfOk};
ghost use Rattle.std.specs.Option.{option_eq};
ghost use Rattle.std.specs.Str.{bytes_eq};
ghost use Rattle.clause_formulas.specs.Statements.{both_statements};
ghost use Rattle.problem.specs.Problems.{same_compiler};
ghost use Rattle.reuse_db.specs.Installed.{installed_node};
ghost use Rattle.graph_formulas.specs.Facts.{has_version, has_compiler, has_os, has_target, has_prefix};
ghost use Rattle.graph_formulas.specs.Kept.{same_rule};
ghost use Rattle.word_formulas.specs.Builders.{node_said, plain_said};
ghost use Rattle.node_formulas.specs.Attributes.{software_rule};

use crate::variant_lists::has_variants;
use clause_formulas::Formula;
use graph_core::{Compiler, Node};
use literal_table::LiteralTable;
use plain_data::Word;
use problem::same_compiler;
use reuse_db::Record;
use std::alloc::{AllocError, Global};
use variant_values::ValueSet;
use word_formulas::Scribe;

fn version_is(
    alloc: Global,
    table: &LiteralTable,
    name: &str,
    text: &str,
) -> Result<Formula, AllocError>
    ensures { IfOk result (λ formula. formula
        ≡ node_said table.now name.now (has_version (λ version. bytes_eq version text.now))) }
{
    Scribe { alloc, table }.version_passes(name, |version| version.text() == text)
}

fn same_compilers(a: &Option<Compiler>, b: &Option<Compiler>) -> bool
    ensures { result ≡ option_eq same_compiler a.now b.now }
{
    match (a, b) {
        (Some(a), Some(b)) => same_compiler(a, b),
        (None, None) => true,
        _ => false,
    }
}

fn compiler_is(
    alloc: Global,
    table: &LiteralTable,
    name: &str,
    compiler: &Option<Compiler>,
) -> Result<Formula, AllocError>
    ensures { IfOk result (λ formula. formula ≡ node_said table.now name.now
        (has_compiler (λ own. option_eq same_compiler own compiler.now))) }
{
    Scribe { alloc, table }.compiler_passes(name, |own| same_compilers(own, compiler))
}

fn os_is(alloc: Global, table: &LiteralTable, name: &str, text: &str) -> Result<Formula, AllocError>
    ensures { IfOk result (λ formula. formula
        ≡ node_said table.now name.now (has_os (λ os. bytes_eq os text.now))) }
{
    Scribe { alloc, table }.os_passes(name, |os| os.as_str() == text)
}

fn target_is(
    alloc: Global,
    table: &LiteralTable,
    name: &str,
    text: &str,
) -> Result<Formula, AllocError>
    ensures { IfOk result (λ formula. formula
        ≡ node_said table.now name.now (has_target (λ target. bytes_eq target text.now))) }
{
    Scribe { alloc, table }.target_passes(name, |target| target.as_str() == text)
}

fn same_prefixes(a: &Option<Word>, b: &Option<Word>) -> bool
    ensures { result ≡ option_eq bytes_eq a.now b.now }
{
    match (a, b) {
        (Some(a), Some(b)) => a.as_str() == b.as_str(),
        (None, None) => true,
        _ => false,
    }
}

fn prefix_is(
    alloc: Global,
    table: &LiteralTable,
    name: &str,
    prefix: &Option<Word>,
) -> Result<Formula, AllocError>
    ensures { IfOk result (λ formula. formula ≡ node_said table.now name.now
        (has_prefix (λ own. option_eq bytes_eq own prefix.now))) }
{
    Scribe { alloc, table }.prefix_passes(name, |own| same_prefixes(own, prefix))
}

// The name, the version and the variants are these.
fn software_is(
    alloc: Global,
    table: &LiteralTable,
    name: &str,
    own: &str,
    version: &str,
    variants: &[(Word, ValueSet)],
) -> Result<Formula, AllocError>
    ensures { IfOk result (λ formula. formula
        ≡ plain_said table.now (software_rule name.now own.now version.now variants.now)) }
{
    let named = Scribe { alloc, table }.given(name == own);
    let version = version_is(alloc, table, name, version)?;
    let first = Formula::both(alloc, named, version)?;
    let variants = has_variants(alloc, table, name, variants)?;
    Formula::both(alloc, first, variants)
}

// That, and the compiler and the OS are these.
fn system_is(
    alloc: Global,
    table: &LiteralTable,
    name: &str,
    software: Formula,
    compiler: &Option<Compiler>,
    os: &str,
) -> Result<Formula, AllocError>
    ensures { IfOk result (λ formula. formula ≡ both_statements (both_statements software
        (node_said table.now name.now
        (has_compiler (λ own. option_eq same_compiler own compiler.now))))
        (node_said table.now name.now (has_os (λ own. bytes_eq own os.now)))) }
{
    let compiler = compiler_is(alloc, table, name, compiler)?;
    let first = Formula::both(alloc, software, compiler)?;
    let os = os_is(alloc, table, name, os)?;
    Formula::both(alloc, first, os)
}

// That, and the target and the prefix are these.
fn place_is(
    alloc: Global,
    table: &LiteralTable,
    name: &str,
    system: Formula,
    target: &str,
    prefix: &Option<Word>,
) -> Result<Formula, AllocError>
    ensures { IfOk result (λ formula. formula ≡ both_statements (both_statements system
        (node_said table.now name.now (has_target (λ own. bytes_eq own target.now))))
        (node_said table.now name.now (has_prefix (λ own. option_eq bytes_eq own prefix.now)))) }
{
    let target = target_is(alloc, table, name, target)?;
    let first = Formula::both(alloc, system, target)?;
    let prefix = prefix_is(alloc, table, name, prefix)?;
    Formula::both(alloc, first, prefix)
}

/// The node of the name has all attributes of this one but the origin.
pub(crate) fn same_formula(
    alloc: Global,
    table: &LiteralTable,
    name: &str,
    node: &Node,
) -> Result<Formula, AllocError>
    ensures { IfOk result (λ formula. formula
        ≡ plain_said table.now (same_rule name.now node.now)) }
{
    let software = software_is(
        alloc,
        table,
        name,
        node.name.as_str(),
        node.version.text(),
        node.variants.as_slice(),
    )?;
    let system = system_is(
        alloc,
        table,
        name,
        software,
        &node.compiler,
        node.os.as_str(),
    )?;
    place_is(
        alloc,
        table,
        name,
        system,
        node.target.as_str(),
        &node.prefix,
    )
}

/// The node of the name is that of the record in all but origin.
pub(crate) fn same_record(
    alloc: Global,
    table: &LiteralTable,
    name: &str,
    entry: &Record,
) -> Result<Formula, AllocError>
    ensures { IfOk result (λ formula. formula
        ≡ plain_said table.now (same_rule name.now (installed_node entry.now))) }
{
    let software = software_is(
        alloc,
        table,
        name,
        entry.name.as_str(),
        entry.version.text(),
        entry.variants.as_slice(),
    )?;
    let system = system_is(
        alloc,
        table,
        name,
        software,
        &entry.compiler,
        entry.os.as_str(),
    )?;
    place_is(
        alloc,
        table,
        name,
        system,
        entry.target.as_str(),
        &entry.external,
    )
}
