//! The stages below, with their faults as those of a file.

ghost use Rattle.recipe_lexer.specs.Layout.{tokens};
ghost use Rattle.recipe_statements.specs.Statements.{items};
ghost use Rattle.recipe_reader.specs.Results.{Is, lex_step, statement_step, condition_at, arguments_at};

use crate::RecipeFault;
use crate::fault::{argument_fault, lex_fault, statement_fault};
use directive_arguments::{Directive, Given};
use plain_data::List;
use recipe_lexer::{Token, lex};
use recipe_statements::{ClassItem, statements};
use recipe_values::{Pile, Segment};
use spec_grammar::Spec;
use std::alloc::Global;

/// The tokens of a file.
pub(crate) fn tokens_of(alloc: Global, bytes: &[u8]) -> Result<List<Token>, RecipeFault>
    ensures { Is result (lex_step (tokens bytes.now)) }
{
    match lex(alloc, bytes) {
        Ok(tokens) => Ok(tokens),
        Err(fault) => Err(lex_fault(fault)),
    }
}

/// The items of a file.
pub(crate) fn items_of(
    alloc: Global,
    bytes: &[u8],
    tokens: &[Token],
) -> Result<List<ClassItem>, RecipeFault>
    ensures { Is result (statement_step (items bytes.now tokens.now)) }
{
    match statements(alloc, bytes, tokens) {
        Ok(items) => Ok(items),
        Err(fault) => Err(statement_fault(fault)),
    }
}

/// A condition, whose first string is at a place; a local one has no `^`.
pub(crate) fn condition(
    alloc: Global,
    local: bool,
    place: u64,
    text: &[u8],
) -> Result<Spec, RecipeFault>
    ensures { Is result (condition_at local place text.now) }
{
    match directive_arguments::condition(alloc, local, place, text) {
        Ok(spec) => Ok(spec),
        Err(fault) => Err(argument_fault(fault)),
    }
}

/// What the arguments of a directive say.
pub(crate) fn arguments(
    alloc: Global,
    bytes: &[u8],
    directive: Directive,
    segments: Pile<Segment>,
) -> Result<Given, RecipeFault>
    ensures { Is result (arguments_at bytes.now directive segments) }
{
    match directive_arguments::arguments(alloc, bytes, directive, segments) {
        Ok(given) => Ok(given),
        Err(fault) => Err(argument_fault(fault)),
    }
}
