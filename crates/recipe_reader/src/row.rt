//! Rows: what a directive adds to a recipe.

ghost use Rattle.std.specs.Prelude.{◌≡◌, ◌++◌, map, [], ◌∷◌, IfOk, OnOk};
ghost use Rattle.recipe_reader.specs.Results.{Gives};
ghost use Rattle.recipe_reader.specs.Rows.{add_version, with_variant_row, add_variant, name_in, provided, add_provides, add_conflict, add_requirement, add_directive};

use crate::depends::add_depends;
use crate::{RecipeFault, State};
use directive_arguments::{Directive, Given, Options, VariantShape, shape_with};
use plain_data::{Duplicate, List, Word};
use recipe_data::{Condition, ConflictRow, ProvideRow, Recipe, RequireRow, VariantRow, VersionRow};
use spec_grammar::{Part, Spec};
use std::alloc::{AllocError, Global};
use std::mem;
use version_order::Version;

/// Adds a version, or refuses one that is missing or whose text stands there already.
fn add_version(
    alloc: Global,
    place: u64,
    number: u64,
    version: Option<Version>,
    options: &Options,
    state: &mut State,
) -> Result<(), RecipeFault>
    ensures { Gives result state.new (add_version place number version options.now state.old) }
{
    let Some(version) = version else {
        return Err(RecipeFault::BadArgument(place));
    };
    if !state.declared.add(Word::new(alloc, version.text())?)? {
        return Err(RecipeFault::TwiceVersion(place));
    }
    state.recipe.versions.push(VersionRow {
        version,
        preferred: options.preferred,
        deprecated: options.deprecated,
        number,
    })?;
    Ok(())
}

/// Adds a variant of this shape, or refuses its default where there is none.
fn with_variant(
    place: u64,
    number: u64,
    name: Word,
    shape: Option<VariantShape>,
    when: Condition,
    recipe: &mut Recipe,
) -> Result<(), RecipeFault>
    ensures { Gives result recipe.new (with_variant_row place number name shape when recipe.old) }
{
    let Some(shape) = shape else {
        return Err(RecipeFault::BadDefault(place));
    };
    recipe.variants.push(VariantRow {
        name,
        kind: shape.kind,
        values: shape.values,
        default: shape.default,
        when,
        number,
    })?;
    Ok(())
}

/// Adds a variant by its keywords, or refuses one without a name.
fn add_variant(
    alloc: Global,
    place: u64,
    number: u64,
    name: Option<Word>,
    options: &mut Options,
    when: Condition,
    recipe: &mut Recipe,
) -> Result<(), RecipeFault>
    ensures { Gives result recipe.new (add_variant place number name options.old when recipe.old) }
{
    let Some(name) = name else {
        return Err(RecipeFault::BadArgument(place));
    };
    let values = options.values.take();
    let shape = shape_with(alloc, &options.default, options.multi, values)?;
    with_variant(place, number, name, shape, when, recipe)
}

fn name_in(alloc: Global, name: &Option<Word>) -> Result<Word, AllocError>
    ensures { IfOk result (λ word. word ≡ name_in name.now) }
{
    match name {
        None => Word::new(alloc, ""),
        Some(word) => word.duplicate(alloc),
    }
}

/// The row of one text of `provides`.
fn provided(
    alloc: Global,
    number: u64,
    when: &Condition,
    part: &Part,
) -> Result<ProvideRow, AllocError>
    ensures { IfOk result (λ row. row ≡ provided number when.now part.now) }
{
    Ok(ProvideRow {
        name: name_in(alloc, &part.name)?,
        versions: part.versions.duplicate(alloc)?,
        when: when.duplicate(alloc)?,
        number,
    })
}

fn push_provided(
    alloc: Global,
    number: u64,
    when: &Condition,
    parts: &[Part],
    rows: &mut List<ProvideRow>,
) -> Result<(), AllocError>
    ensures { OnOk result (rows.new ≡ rows.old ++ map (provided number when.now) parts.now) }
{
    for part in parts {
        rows.push(provided(alloc, number, when, part)?)?;
    }
    Ok(())
}

fn add_provides(
    alloc: Global,
    place: u64,
    number: u64,
    parts: &List<Part>,
    when: &Condition,
    recipe: &mut Recipe,
) -> Result<(), RecipeFault>
    ensures { Gives result recipe.new (add_provides place number parts.now when.now recipe.old) }
{
    if parts.is_empty() {
        return Err(RecipeFault::BadArgument(place));
    }
    push_provided(alloc, number, when, parts.as_slice(), &mut recipe.provides)?;
    Ok(())
}

fn add_conflict(
    place: u64,
    number: u64,
    spec: Option<Spec>,
    when: Condition,
    recipe: &mut Recipe,
) -> Result<(), RecipeFault>
    ensures { Gives result recipe.new (add_conflict place number spec when recipe.old) }
{
    let Some(spec) = spec else {
        return Err(RecipeFault::BadArgument(place));
    };
    recipe.conflicts.push(ConflictRow { spec, when, number })?;
    Ok(())
}

/// Adds what is required, or refuses a directive that names no spec.
fn add_requirement(
    place: u64,
    number: u64,
    specs: List<Spec>,
    one_of: bool,
    when: Condition,
    recipe: &mut Recipe,
) -> Result<(), RecipeFault>
    ensures { Gives result recipe.new (add_requirement place number specs one_of when recipe.old) }
{
    if specs.is_empty() {
        return Err(RecipeFault::BadArgument(place));
    }
    recipe.requirements.push(RequireRow {
        specs,
        one_of,
        when,
        number,
    })?;
    Ok(())
}

/// The rows of the directive at a place, or the fault that its first value is missing.
#[tactic(auto, unfolding(crate::specs::Rows::add_directive))]
pub(crate) fn add(
    alloc: Global,
    directive: Directive,
    place: u64,
    number: u64,
    given: &mut Given,
    when: Condition,
    state: &mut State,
) -> Result<(), RecipeFault>
    ensures { Gives result state.new
        (add_directive directive place number given.old when state.old) }
{
    match directive {
        Directive::Version => {
            let version = given.positional.version.take();
            add_version(alloc, place, number, version, &given.options, state)
        }
        Directive::Variant => {
            let name = given.positional.name.take();
            add_variant(
                alloc,
                place,
                number,
                name,
                &mut given.options,
                when,
                &mut state.recipe,
            )
        }
        Directive::DependsOn => {
            let part = given.positional.part.take();
            add_depends(
                place,
                number,
                part,
                given.options.kinds,
                when,
                &mut state.recipe,
            )
        }
        Directive::Provides => {
            add_provides(
                alloc,
                place,
                number,
                &given.positional.parts,
                &when,
                &mut state.recipe,
            )
        }
        Directive::Conflicts => {
            let spec = given.positional.spec.take();
            add_conflict(place, number, spec, when, &mut state.recipe)
        }
        Directive::Requires => {
            let specs = mem::replace(&mut given.positional.specs, List::new(alloc));
            add_requirement(
                place,
                number,
                specs,
                given.options.one_of,
                when,
                &mut state.recipe,
            )
        }
    }
}
