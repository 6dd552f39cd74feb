//! Positional values.

ghost use Rattle.std.specs.Prelude.{◌≡◌, Bool, true, false};
ghost use Rattle.std.specs.Option.{option_copied};
ghost use Rattle.spec_grammar.specs.declared.mode.Mode.TheVariants.{Dependency, Provision};
ghost use Rattle.directive_arguments.specs.Results.{Is, Gives, then_do};
ghost use Rattle.directive_arguments.specs.Table.{takes};
ghost use Rattle.directive_arguments.specs.Texts.{condition, part_of, version_of};
ghost use Rattle.directive_arguments.specs.Given.{nothing_positional, read, text_in, with_version, with_name, with_part, with_provided, with_conflict, with_required, with_text, with_value, has_value, further, positional};

use crate::table::count_of;
use crate::text::{condition, dependency, provision, version};
use crate::{ArgumentFault, Count, Directive, Positional};
use plain_data::{List, Word};
use recipe_values::{PlacedValue, Scalar, Segment, Value, ValueFault, place_of, read_value};
use spec_grammar::is_name;
use std::alloc::Global;

/// Before any positional value.
pub(crate) fn nothing_positional(alloc: Global) -> Positional
    ensures { result ≡ nothing_positional }
{
    Positional {
        version: None,
        name: None,
        part: None,
        parts: List::new(alloc),
        spec: None,
        specs: List::new(alloc),
    }
}

/// The value of a segment.
pub(crate) fn read(
    alloc: Global,
    bytes: &[u8],
    segment: Segment,
) -> Result<PlacedValue, ArgumentFault>
    ensures { Is result (read bytes.now segment) }
{
    match read_value(alloc, bytes, segment) {
        Ok(reading) => Ok(reading),
        Err(ValueFault::Unsupported(place)) => Err(ArgumentFault::Unsupported(place)),
        Err(ValueFault::OutOfMemory) => Err(ArgumentFault::OutOfMemory),
    }
}

/// The text that a value is; a whole number counts as its digits.
pub(crate) fn text_in(value: &Value) -> Option<&Word>
    ensures { option_copied result ≡ text_in value.now }
{
    match value {
        Value::One(Scalar::Text(word)) => Some(word),
        Value::One(Scalar::Number(word)) => Some(word),
        _ => None,
    }
}

fn with_version(
    alloc: Global,
    token: u64,
    text: &str,
    p: &mut Positional,
) -> Result<(), ArgumentFault>
    ensures { Gives result p.new (with_version p.old (version_of token text.now)) }
{
    p.version = Some(version(alloc, token, text.as_bytes())?);
    Ok(())
}

fn with_name(alloc: Global, place: u64, text: &str, p: &mut Positional) -> Result<(), ArgumentFault>
    ensures { Gives result p.new (with_name p.old place text.now) }
{
    if !is_name(text.as_bytes()) {
        return Err(ArgumentFault::BadArgument(place));
    }
    p.name = Some(Word::new(alloc, text)?);
    Ok(())
}

fn with_part(alloc: Global, token: u64, text: &str, p: &mut Positional) -> Result<(), ArgumentFault>
    ensures { Gives result p.new (with_part p.old (part_of Dependency token text.now)) }
{
    p.part = Some(dependency(alloc, token, text.as_bytes())?);
    Ok(())
}

fn with_provided(
    alloc: Global,
    token: u64,
    text: &str,
    p: &mut Positional,
) -> Result<(), ArgumentFault>
    ensures { Gives result p.new (with_provided p.old (part_of Provision token text.now)) }
{
    p.parts.push(provision(alloc, token, text.as_bytes())?)?;
    Ok(())
}

fn with_conflict(
    alloc: Global,
    token: u64,
    text: &str,
    p: &mut Positional,
) -> Result<(), ArgumentFault>
    ensures { Gives result p.new (with_conflict p.old (condition false token text.now)) }
{
    p.spec = Some(condition(alloc, false, token, text.as_bytes())?);
    Ok(())
}

fn with_required(
    alloc: Global,
    token: u64,
    text: &str,
    p: &mut Positional,
) -> Result<(), ArgumentFault>
    ensures { Gives result p.new (with_required p.old (condition false token text.now)) }
{
    p.specs
        .push(condition(alloc, false, token, text.as_bytes())?)?;
    Ok(())
}

/// A text, which stands at a place and whose first string is at `token`.
#[tactic(auto, unfolding(crate::specs::Given::with_text))]
fn with_text(
    alloc: Global,
    directive: Directive,
    place: u64,
    token: u64,
    text: &str,
    p: &mut Positional,
) -> Result<(), ArgumentFault>
    ensures { Gives result p.new (with_text directive place token text.now p.old) }
{
    match directive {
        Directive::Version => with_version(alloc, token, text, p),
        Directive::Variant => with_name(alloc, place, text, p),
        Directive::DependsOn => with_part(alloc, token, text, p),
        Directive::Provides => with_provided(alloc, token, text, p),
        Directive::Conflicts => with_conflict(alloc, token, text, p),
        Directive::Requires => with_required(alloc, token, text, p),
    }
}

/// A positional value, which is to be a text.
fn with_value(
    alloc: Global,
    directive: Directive,
    reading: &PlacedValue,
    p: &mut Positional,
) -> Result<(), ArgumentFault>
    ensures { Gives result p.new (with_value directive reading.now p.old) }
{
    let Some(word) = text_in(&reading.value) else {
        return Err(ArgumentFault::BadArgument(reading.place));
    };
    with_text(
        alloc,
        directive,
        reading.place,
        reading.token,
        word.as_str(),
        p,
    )
}

/// Whether the directive has a positional value.
fn has_value(directive: Directive, p: &Positional) -> bool
    ensures { result ≡ has_value directive p.now }
{
    match directive {
        Directive::Version => p.version.is_some(),
        Directive::Variant => p.name.is_some(),
        Directive::DependsOn => p.part.is_some(),
        Directive::Provides => p.parts.len() > 0,
        Directive::Conflicts => p.spec.is_some(),
        Directive::Requires => p.specs.len() > 0,
    }
}

/// Reads a positional value.
fn read_positional(
    alloc: Global,
    bytes: &[u8],
    directive: Directive,
    segment: Segment,
    p: &mut Positional,
) -> Result<(), ArgumentFault>
    ensures { Gives result p.new (then_do (read bytes.now segment)
        (λ r. with_value directive r p.old)) }
{
    let reading = read(alloc, bytes, segment)?;
    with_value(alloc, directive, &reading, p)
}

/// One value more behind another one.
fn further(
    alloc: Global,
    bytes: &[u8],
    directive: Directive,
    segment: Segment,
    p: &mut Positional,
) -> Result<(), ArgumentFault>
    ensures { Gives result p.new (further (takes directive).positional bytes.now directive
        segment p.old) }
{
    match count_of(directive) {
        Count::One => Err(ArgumentFault::Unsupported(place_of(&segment))),
        Count::OneAndOthers => Ok(()),
        Count::OneOrMore => read_positional(alloc, bytes, directive, segment, p),
    }
}

/// A positional value: the first one is read, and a further one is read, passed over or refused.
#[tactic(auto, unfolding(crate::specs::Given::positional))]
pub(crate) fn positional(
    alloc: Global,
    bytes: &[u8],
    directive: Directive,
    segment: Segment,
    p: &mut Positional,
) -> Result<(), ArgumentFault>
    ensures { Gives result p.new (positional bytes.now directive segment p.old) }
{
    if has_value(directive, p) {
        further(alloc, bytes, directive, segment, p)
    } else {
        read_positional(alloc, bytes, directive, segment, p)
    }
}
