//! Arguments, one after the other from the left.

ghost use Rattle.std.specs.Prelude.{◌≡◌};
ghost use Rattle.recipe_statements.specs.Lines.{word};
ghost use Rattle.directive_arguments.specs.Results.{Is, Gives, steps, then_do};
ghost use Rattle.directive_arguments.specs.Table.{role};
ghost use Rattle.directive_arguments.specs.Arguments.{nothing_given, once, note, keyword, argument, arguments};

use crate::keyword::{no_options, option};
use crate::names::Names;
use crate::positional::{nothing_positional, positional, read};
use crate::table::role;
use crate::{ArgumentFault, Directive, Given, Role};
use plain_data::Word;
use recipe_lexer::{Token, TokenKind};
use recipe_values::{Pile, Segment, keyword_of, without_keyword};
use std::alloc::Global;

/// Before any argument.
fn nothing_given(alloc: Global) -> Given
    ensures { result ≡ nothing_given }
{
    Given {
        positional: nothing_positional(alloc),
        names: Names::new(alloc),
        options: no_options(),
    }
}

/// The text of a word, none for another token.
fn word(bytes: &[u8], token: Token) -> &[u8]
    ensures { result.now ≡ word bytes.now token }
{
    match token.kind {
        TokenKind::Word => token.text(bytes),
        _ => &[],
    }
}

fn add_once(place: u64, name: Word, names: &mut Names) -> Result<(), ArgumentFault>
    ensures { Gives result names.new (once place name names.old) }
{
    if names.add(name)? {
        Ok(())
    } else {
        Err(ArgumentFault::BadArgument(place))
    }
}

/// A keyword is given, which may stand once.
fn once(alloc: Global, place: u64, text: &str, names: &mut Names) -> Result<(), ArgumentFault>
    ensures { Gives result names.new (once place text.now names.old) }
{
    add_once(place, Word::new(alloc, text)?, names)
}

/// A keyword is given, as its bytes.
fn note(alloc: Global, place: u64, word: &[u8], names: &mut Names) -> Result<(), ArgumentFault>
    ensures { Gives result names.new (note place word.now names.old) }
{
    match str::from_utf8(word) {
        Ok(text) => once(alloc, place, text, names),
        Err(_) => Err(ArgumentFault::Unsupported(place)),
    }
}

/// A keyword at a place, and the value behind it.
fn keyword(
    alloc: Global,
    bytes: &[u8],
    directive: Directive,
    place: u64,
    word: &[u8],
    segment: Segment,
    given: &mut Given,
) -> Result<(), ArgumentFault>
    ensures { Gives result given.new
        (keyword (role directive word.now) bytes.now directive place word.now segment given.old) }
{
    match role(directive, word) {
        Role::Refuses => Err(ArgumentFault::Unsupported(place)),
        Role::PassesOver => note(alloc, place, word, &mut given.names),
        Role::Reads(keyword) => {
            note(alloc, place, word, &mut given.names)?;
            let reading = read(alloc, bytes, segment)?;
            option(alloc, directive, keyword, reading, &mut given.options)
        }
    }
}

/// One argument more.
#[tactic(auto, unfolding(crate::specs::Arguments::argument))]
fn argument(
    alloc: Global,
    bytes: &[u8],
    directive: Directive,
    segment: Segment,
    given: &mut Given,
) -> Result<(), ArgumentFault>
    ensures { Gives result given.new (argument bytes.now directive segment given.old) }
{
    match keyword_of(&segment) {
        None => positional(alloc, bytes, directive, segment, &mut given.positional),
        Some(token) => {
            let behind = without_keyword(segment);
            keyword(
                alloc,
                bytes,
                directive,
                token.start,
                word(bytes, token),
                behind,
                given,
            )
        }
    }
}

/// All arguments, each wholly checked before the next one.
fn add_arguments(
    alloc: Global,
    bytes: &[u8],
    directive: Directive,
    mut segments: Pile<Segment>,
    given: &mut Given,
) -> Result<(), ArgumentFault>
    ensures { Gives result given.new (steps (argument bytes.now directive) segments given.old) }
{
    while let Some(segment) = segments.pop() {
        match argument(alloc, bytes, directive, segment, given) {
            Ok(()) => {}
            Err(fault) => return Err(fault),
        }
    }
    Ok(())
}

/// What the arguments of a directive say: what stands between its commas, each wholly read before the next one.
///
/// # Errors
///
/// The first fault from the left.
#[tactic(auto, unfolding(crate::specs::Arguments::arguments))]
pub fn arguments(
    alloc: Global,
    bytes: &[u8],
    directive: Directive,
    segments: Pile<Segment>,
) -> Result<Given, ArgumentFault>
    ensures { Is result (arguments bytes.now directive segments) }
{
    let mut given = nothing_given(alloc);
    add_arguments(alloc, bytes, directive, segments, &mut given)?;
    Ok(given)
}
