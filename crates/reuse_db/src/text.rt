//! The canonical text of a record.
ghost use Rattle.std.specs.Prelude.{◌≡◌, List, ◌∷◌, map, codes, IfOk, if◌then◌else◌};
ghost use Rattle.serde_json.specs.Data.{Data, array, object, member, no_members, string};
ghost use Rattle.serde_json.specs.View.{view, members_view, items_view};
ghost use Rattle.reuse_db.specs.Canonical.{texts_data, compiler_data, external_data};
ghost use Rattle.reuse_db.specs.Canonical.{variant_members, kind_texts, dependency_data};
ghost use Rattle.reuse_db.specs.Canonical.{dependency_members, values_of, record_data, canonical};

use crate::{Dependency, Record};
use graph_core::{Compiler, Kinds, ValueSet};
use plain_data::Word;
use serde_json::{Map, Value, json};
use std::alloc::{AllocError, Global};

/// The canonical text of a record: its compact JSON text without the hash.
pub fn canonical(alloc: Global, entry: &Record) -> Result<Vec<u8>, AllocError>
    ensures { IfOk result (λ text. text.items ≡ canonical entry.now) }
{
    record_value(alloc, entry)?.to_vec(alloc)
}

/// The JSON object of a record without its hash, of which the canonical text is the compact text.
pub fn record_value(alloc: Global, entry: &Record) -> Result<Value, AllocError>
    ensures { IfOk result (λ value. view value ≡ record_data entry.now) }
{
    let compiler = compiler_value(alloc, &entry.compiler)?;
    let dependencies = dependencies_value(alloc, entry.dependencies.as_slice())?;
    let external = external_value(alloc, &entry.external)?;
    let variants = variants_value(alloc, entry.variants.as_slice())?;
    record_object(alloc, entry, compiler, dependencies, external, variants)
}

/// The object of a record, its keys in byte order.
fn record_object(
    alloc: Global,
    entry: &Record,
    compiler: Value,
    dependencies: Value,
    external: Value,
    variants: Value,
) -> Result<Value, AllocError>
    ensures { IfOk result (λ value. view value ≡ object
        (member (codes "compiler") (view compiler)
        (member (codes "dependencies") (view dependencies)
        (member (codes "external") (view external)
        (member (codes "name") (string entry.now.name)
        (member (codes "os") (string entry.now.os)
        (member (codes "target") (string entry.now.target)
        (member (codes "variants") (view variants)
        (member (codes "version") (string entry.now.version) no_members))))))))) }
{
    json!(in alloc; {
        "compiler": compiler,
        "dependencies": dependencies,
        "external": external,
        "name": entry.name.as_str(),
        "os": entry.os.as_str(),
        "target": entry.target.as_str(),
        "variants": variants,
        "version": entry.version.text()
    })
}

/// A compiler as an object, or null.
fn compiler_value(alloc: Global, compiler: &Option<Compiler>) -> Result<Value, AllocError>
    ensures { IfOk result (λ value. view value ≡ compiler_data compiler.now) }
{
    match compiler {
        Some(compiler) => {
            json!(in alloc; {"name": compiler.name.as_str(), "version": compiler.version.text()})
        }
        None => Ok(Value::Null),
    }
}

fn external_value(alloc: Global, external: &Option<Word>) -> Result<Value, AllocError>
    ensures { IfOk result (λ value. view value ≡ external_data external.now) }
{
    match external {
        Some(prefix) => Value::try_from_str(alloc, prefix.as_str()),
        None => Ok(Value::Null),
    }
}

fn texts_value(alloc: Global, texts: &[Word]) -> Result<Value, AllocError>
    ensures { IfOk result (λ value. view value ≡ texts_data texts.now) }
{
    let mut list = Vec::new(alloc);
    for text in texts {
        list.push(Value::try_from_str(alloc, text.as_str())?)?;
    }
    Ok(Value::Array(list))
}

/// Each variant with the list of its values.
fn variants_value(alloc: Global, variants: &[(Word, ValueSet)]) -> Result<Value, AllocError>
    ensures { IfOk result (λ value. view value ≡ object (variant_members variants.now)) }
{
    let mut map = Map::new(alloc);
    for variant in variants {
        let values = texts_value(alloc, variant.1.values())?;
        serde_json::put(&mut map, alloc, variant.0.as_str(), values)?;
    }
    Ok(Value::Object(map))
}

/// The kinds of a dependency as a list, in the order build, link, run.
fn kinds_value(alloc: Global, kinds: &Kinds) -> Result<Value, AllocError>
    ensures { IfOk result (λ value. view value ≡ texts_data (kind_texts kinds.now)) }
{
    match (kinds.build, kinds.link, kinds.run) {
        (true, true, true) => json!(in alloc; ["build", "link", "run"]),
        (true, true, false) => json!(in alloc; ["build", "link"]),
        (true, false, true) => json!(in alloc; ["build", "run"]),
        (true, false, false) => json!(in alloc; ["build"]),
        (false, true, true) => json!(in alloc; ["link", "run"]),
        (false, true, false) => json!(in alloc; ["link"]),
        (false, false, true) => json!(in alloc; ["run"]),
        (false, false, false) => Ok(Value::Array(Vec::new(alloc))),
    }
}

/// A dependency as an object; its virtuals stand there where it has some.
fn dependency_value(alloc: Global, dependency: &Dependency) -> Result<Value, AllocError>
    ensures { IfOk result (λ value. view value ≡ dependency_data dependency.now) }
{
    let kinds = kinds_value(alloc, &dependency.kinds)?;
    if dependency.virtuals.is_empty() {
        return json!(in alloc; {"hash": dependency.hash.as_str(), "kinds": kinds});
    }
    let virtuals = texts_value(alloc, dependency.virtuals.values())?;
    json!(in alloc; {"hash": dependency.hash.as_str(), "kinds": kinds, "virtuals": virtuals})
}

/// The dependencies in byte order of their hashes, which the map's keys give.
fn dependencies_by_hash(
    alloc: Global,
    dependencies: &[Dependency],
) -> Result<Map<String, Value>, AllocError>
    ensures { IfOk result (λ map. members_view map.entries ≡ dependency_members dependencies.now) }
{
    let mut map = Map::new(alloc);
    for dependency in dependencies {
        let value = dependency_value(alloc, dependency)?;
        serde_json::put(&mut map, alloc, dependency.hash.as_str(), value)?;
    }
    Ok(map)
}

fn values_in(alloc: Global, map: Map<String, Value>) -> Result<Vec<Value>, AllocError>
    ensures { IfOk result (λ values. items_view values.items
        ≡ values_of (members_view map.entries)) }
{
    let mut values = Vec::new(alloc);
    for value in map.into_values() {
        values.push(value)?;
    }
    Ok(values)
}

fn dependencies_value(alloc: Global, dependencies: &[Dependency]) -> Result<Value, AllocError>
    ensures { IfOk result (λ value. view value
        ≡ array (values_of (dependency_members dependencies.now))) }
{
    let map = dependencies_by_hash(alloc, dependencies)?;
    Ok(Value::Array(values_in(alloc, map)?))
}
