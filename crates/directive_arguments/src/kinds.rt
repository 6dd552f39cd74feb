//! `type`: what a dependency is needed for.

ghost use Rattle.std.specs.Prelude.{◌≡◌};
ghost use Rattle.directive_arguments.specs.Results.{Is, steps};
ghost use Rattle.directive_arguments.specs.Keywords.{add_word, add_kind, element_kind, kinds_in};
ghost use Rattle.graph_core.specs.Graphs.{no_kinds};

use crate::ArgumentFault;
use crate::table::is;
use graph_core::Kinds;
use recipe_values::{Element, PlacedValue, Scalar, Value};

const NO_KINDS: Kinds = Kinds {
    build: false,
    link: false,
    run: false,
};

/// These kinds and one more; `test` adds none.
fn add_word(place: u64, word: &[u8], kinds: Kinds) -> Result<Kinds, ArgumentFault>
    ensures { Is result (add_word place word.now kinds) }
{
    if is(word, b"build") {
        Ok(Kinds {
            build: true,
            ..kinds
        })
    } else if is(word, b"link") {
        Ok(Kinds {
            link: true,
            ..kinds
        })
    } else if is(word, b"run") {
        Ok(Kinds { run: true, ..kinds })
    } else if is(word, b"test") {
        Ok(kinds)
    } else {
        Err(ArgumentFault::BadArgument(place))
    }
}

fn add_kind(place: u64, scalar: &Scalar, kinds: Kinds) -> Result<Kinds, ArgumentFault>
    ensures { Is result (add_kind place scalar.now kinds) }
{
    match scalar {
        Scalar::Text(word) => add_word(place, word.as_str().as_bytes(), kinds),
        _ => Err(ArgumentFault::BadArgument(place)),
    }
}

/// The kinds that a tuple or list names.
fn add_kinds(elements: &[Element]) -> Result<Kinds, ArgumentFault>
    ensures { Is result (steps element_kind elements.now no_kinds) }
{
    let mut kinds = NO_KINDS;
    for element in elements {
        match add_kind(element.place, &element.scalar, kinds) {
            Ok(more) => kinds = more,
            Err(fault) => return Err(fault),
        }
    }
    Ok(kinds)
}

/// One kind, or a tuple or list of them that is not empty.
pub(crate) fn kinds_in(reading: &PlacedValue) -> Result<Kinds, ArgumentFault>
    ensures { Is result (kinds_in reading.now) }
{
    match &reading.value {
        Value::One(scalar) => add_kind(reading.place, scalar, NO_KINDS),
        Value::Many(elements) => {
            if elements.is_empty() {
                return Err(ArgumentFault::BadArgument(reading.place));
            }
            add_kinds(elements.as_slice())
        }
    }
}
