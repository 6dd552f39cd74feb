//! Rows of `depends_on`.

ghost use Rattle.std.specs.Prelude.{◌≡◌};
ghost use Rattle.std.specs.Str.{bytes_eq};
ghost use Rattle.graph_core.specs.Graphs.{has_kind};
ghost use Rattle.recipe_reader.specs.Results.{Gives};
ghost use Rattle.recipe_reader.specs.Rows.{is_language, names_language, is_bare, is_passed_over, add_depends};

use crate::RecipeFault;
use graph_core::Kinds;
use plain_data::Word;
use recipe_data::{Condition, DependRow, Recipe};
use spec_grammar::Part;

/// Whether a text is this one.
fn is(text: &[u8], wanted: &[u8]) -> bool
    ensures { result ≡ bytes_eq text.now wanted.now }
{
    text == wanted
}

/// Whether a dependency is needed for anything but tests.
fn has_kind(kinds: Kinds) -> bool
    ensures { result ≡ has_kind kinds }
{
    kinds.build || kinds.link || kinds.run
}

/// The languages of compilers.
fn is_language(name: &[u8]) -> bool
    ensures { result ≡ is_language name.now }
{
    is(name, b"c") || is(name, b"cxx") || is(name, b"fortran")
}

fn names_language(name: &Option<Word>) -> bool
    ensures { result ≡ names_language name.now }
{
    match name {
        None => false,
        Some(word) => is_language(word.as_str().as_bytes()),
    }
}

/// Whether nothing is asked but the name.
fn is_bare(part: &Part) -> bool
    ensures { result ≡ is_bare part.now }
{
    !part.versions.is_some()
        && part.variants.is_empty()
        && !part.compiler.is_some()
        && !part.platform.is_some()
        && !part.os.is_some()
        && !part.targets.is_some()
}

/// Whether a dependency leaves no row.
fn is_passed_over(kinds: Kinds, part: &Part) -> bool
    ensures { result ≡ is_passed_over kinds part.now }
{
    !has_kind(kinds) || (is_bare(part) && names_language(&part.name))
}

/// The row of a dependency, or none; or the fault that it names no package.
pub(crate) fn add_depends(
    place: u64,
    number: u64,
    part: Option<Part>,
    kinds: Kinds,
    when: Condition,
    recipe: &mut Recipe,
) -> Result<(), RecipeFault>
    ensures { Gives result recipe.new (add_depends place number part kinds when recipe.old) }
{
    let Some(part) = part else {
        return Err(RecipeFault::BadArgument(place));
    };
    if is_passed_over(kinds, &part) {
        return Ok(());
    }
    recipe.depends.push(DependRow {
        part,
        kinds,
        when,
        number,
    })?;
    Ok(())
}
