//! What a site has, line by line.
//!
//! `require NAME CONDITION..` is what the settings require of a package, item by item;
//! `package NAME` is what the settings say of a package without externals, `external NAME` of one
//! with an external; `record NAME CHILD:KIND=VIRTUAL,.. ..` is an installed package, whose children
//! are records above it. NAME may have a version behind `@`, which is 1 without, and then `%gcc`,
//! which is gcc 12.2; CHILD may have a version too. KIND is `build`, `link` or `run`, or several
//! joined by `+`; without `=` a child provides nothing.

use crate::nodes::{add_names, compiler_of};
use graph_core::{Compiler, Kinds};
use plain_data::{List, Word};
use reuse_db::{Database, DbFault, Dependency, Record, canonical};
use site_settings::{ExternalEntry, PackageEntry, RequireEntry, Settings};
use spec_grammar::{Condition, read_condition};
use spec_hash::{Hash, hash_text};
use std::alloc::{AllocError, Global};
use variant_values::ValueSet;
use version_order::Version;

/// What a site has.
#[derive(Drop)]
pub(crate) struct Site {
    pub(crate) settings: Settings,
    pub(crate) database: Database,
}

// ---- settings

fn version_of(alloc: Global, text: &str) -> Result<Version, AllocError> {
    match Version::read(alloc, text) {
        Ok(version) => Ok(version),
        Err(_) => Err(AllocError),
    }
}

fn external_of(alloc: Global) -> Result<ExternalEntry, AllocError> {
    Ok(ExternalEntry {
        version: version_of(alloc, "1")?,
        variants: List::new(alloc),
        compiler: None,
        os: None,
        target: None,
        prefix: Word::new(alloc, "/usr")?,
    })
}

fn package_of(alloc: Global, name: &str, is_there: bool) -> Result<PackageEntry, AllocError> {
    let mut externals = List::new(alloc);
    if is_there {
        externals.push(external_of(alloc)?)?;
    }
    Ok(PackageEntry {
        name: Word::new(alloc, name)?,
        versions: List::new(alloc),
        buildable: true,
        externals,
        require: List::new(alloc),
    })
}

fn item_of(alloc: Global, text: &str) -> Result<RequireEntry, AllocError> {
    let mut specs = List::new(alloc);
    match read_condition(alloc, text) {
        Ok(spec) => specs.push(spec)?,
        Err(_) => return Err(AllocError),
    }
    Ok(RequireEntry {
        specs,
        one_of: false,
        when: Condition {
            specs: List::new(alloc),
        },
    })
}

fn required_of(alloc: Global, words: &str) -> Result<PackageEntry, AllocError> {
    let (name, texts) = words.split_once(' ').unwrap_or((words, ""));
    let mut package = package_of(alloc, name, false)?;
    for text in texts.split_whitespace() {
        package.require.push(item_of(alloc, text)?)?;
    }
    Ok(package)
}

fn add_package(alloc: Global, settings: &mut Settings, line: &str) -> Result<(), AllocError> {
    if let Some(name) = line.strip_prefix("package ") {
        settings.packages.push(package_of(alloc, name, false)?)?;
    } else if let Some(name) = line.strip_prefix("external ") {
        settings.packages.push(package_of(alloc, name, true)?)?;
    } else if let Some(words) = line.strip_prefix("require ") {
        settings.packages.push(required_of(alloc, words)?)?;
    }
    Ok(())
}

/// The standard settings with the packages of these lines.
fn settings_of(alloc: Global, lines: &str) -> Result<Settings, AllocError> {
    let mut settings = Settings::standard(alloc)?;
    for line in lines.lines() {
        add_package(alloc, &mut settings, line)?;
    }
    Ok(settings)
}

// ---- records

fn has_kind(kinds: &str, kind: &str) -> bool {
    kinds.split('+').any(|word| word == kind)
}

fn kinds_of(word: &str) -> Kinds {
    Kinds {
        build: has_kind(word, "build"),
        link: has_kind(word, "link"),
        run: has_kind(word, "run"),
    }
}

fn is_named(record: &Record, word: &str) -> bool {
    match word.split_once('@') {
        Some((name, version)) => {
            record.name.as_str() == name && record.version.text() == version
        }
        None => record.name.as_str() == word,
    }
}

fn hash_at(records: &[Record], word: &str) -> Option<Hash> {
    for record in records {
        if is_named(record, word) {
            return Some(record.hash);
        }
    }
    None
}

/// A child, by its kinds and what it names behind `=`.
fn dependency_of(alloc: Global, hash: Hash, how: &str) -> Result<Dependency, AllocError> {
    let (kind, names) = how.split_once('=').unwrap_or((how, ""));
    let mut virtuals = ValueSet::new(alloc);
    add_names(alloc, &mut virtuals, names)?;
    Ok(Dependency {
        hash,
        kinds: kinds_of(kind),
        virtuals,
    })
}

fn children_of(
    alloc: Global,
    records: &[Record],
    words: &str,
) -> Result<List<Dependency>, AllocError> {
    let mut children = List::new(alloc);
    for word in words.split_whitespace() {
        let (name, how) = word.split_once(':').unwrap_or((word, "link"));
        if let Some(hash) = hash_at(records, name) {
            children.push(dependency_of(alloc, hash, how)?)?;
        }
    }
    Ok(children)
}

fn compiler_at(alloc: Global, has_compiler: bool) -> Result<Option<Compiler>, AllocError> {
    if has_compiler {
        Ok(Some(compiler_of(alloc)?))
    } else {
        Ok(None)
    }
}

fn record_of(alloc: Global, records: &[Record], words: &str) -> Result<Record, AllocError> {
    let (subject, children) = words.split_once(' ').unwrap_or((words, ""));
    let (subject, has_compiler) = match subject.strip_suffix("%gcc") {
        Some(front) => (front, true),
        None => (subject, false),
    };
    let (name, version) = subject.split_once('@').unwrap_or((subject, "1"));
    let mut record = Record {
        hash: hash_text(b""),
        name: Word::new(alloc, name)?,
        version: version_of(alloc, version)?,
        variants: List::new(alloc),
        compiler: compiler_at(alloc, has_compiler)?,
        os: Word::new(alloc, "ubuntu22.04")?,
        target: Word::new(alloc, "x86_64")?,
        external: None,
        dependencies: children_of(alloc, records, children)?,
    };
    let text = canonical(alloc, &record)?;
    record.hash = hash_text(text.as_slice());
    Ok(record)
}

/// The records of these lines.
fn database_of(alloc: Global, lines: &str) -> Result<Database, DbFault> {
    let mut records = List::new(alloc);
    for line in lines.lines() {
        if let Some(words) = line.strip_prefix("record ") {
            let record = record_of(alloc, records.as_slice(), words)?;
            records.push(record)?;
        }
    }
    Database::from_records(alloc, records)
}

/// The site of these lines, or the fault of its records.
pub(crate) fn site_of(alloc: Global, lines: &str) -> Result<Site, DbFault> {
    let settings = settings_of(alloc, lines)?;
    let database = database_of(alloc, lines)?;
    Ok(Site { settings, database })
}
