//! Items: calls of directives, and heads of blocks.

ghost use Rattle.std.specs.Prelude.{◌≡◌, ◌++◌, [], ◌∷◌, true, take, drop, IfOk, OnOk};
ghost use Rattle.std.specs.Option.{option_copied, option_to_list};
ghost use Rattle.directive_arguments.specs.Results.{then_do};
ghost use Rattle.recipe_reader.specs.Results.{Is, Gives, as_recipe_step};
ghost use Rattle.recipe_values.specs.Strings.{strings_text, first_start};
ghost use Rattle.recipe_reader.specs.Rows.{add_directive};
ghost use Rattle.recipe_reader.specs.Recipes.{innermost, when_of_head, nested_in, own_when_fault, outermost_fault, head, enter_head, with_head, when_of, unless_fault, may_stand_in, call, call_by, item};

use crate::row::add;
use crate::stage::{arguments, condition};
use crate::tokens::{first_word, from, start_of, up_to};
use crate::{Head, RecipeFault, State};
use directive_arguments::{Directive, Given, directive_of};
use plain_data::{Duplicate, List};
use recipe_data::Condition;
use recipe_lexer::Token;
use recipe_statements::ClassItem;
use recipe_values::{Pile, Segment, ValueFault, read_text};
use spec_grammar::Spec;
use std::alloc::{AllocError, Global};
use std::mem;

/// The innermost of the first heads, so many as a depth says.
fn innermost(heads: &List<Head>, depth: u64) -> Option<&Head>
    ensures { option_copied result ≡ innermost heads.now depth }
{
    if depth == 0 {
        return None;
    }
    heads.as_slice().get((depth - 1) as usize)
}

/// No conditions, with room for so many: nearly all rows have one or none, and a list that grows by itself has room for
/// four from the first on.
fn with_room(alloc: Global, most: usize) -> Result<List<Spec>, AllocError>
    ensures { IfOk result (λ specs. specs ≡ []) }
{
    Ok(List::from_vec(Vec::with_capacity(alloc, most)?))
}

/// The conditions of a head, and one more where there is one.
fn when_of(alloc: Global, around: Option<&Head>, own: Option<Spec>) -> Result<Condition, AllocError>
    ensures { IfOk result (λ when. when.specs ≡ when_of_head (option_copied around.entry)
        ++ option_to_list own) }
{
    let mut when = match around {
        None => Condition {
            specs: with_room(alloc, own.is_some() as usize)?,
        },
        Some(head) => head.when.duplicate(alloc)?,
    };
    if let Some(spec) = own {
        when.specs.push(spec)?;
    }
    Ok(when)
}

fn nested_in(around: Option<&Head>) -> Option<RecipeFault>
    ensures { result ≡ nested_in (option_copied around.entry) }
{
    match around {
        None => None,
        Some(head) => head.nested,
    }
}

/// The fault of a condition with `^` as a local one, none where it has no `^`.
fn own_fault(
    alloc: Global,
    spec: &Spec,
    place: u64,
    text: &[u8],
) -> Result<Option<RecipeFault>, AllocError>
    ensures { IfOk result (λ fault. fault ≡ own_when_fault spec.now place text.now) }
{
    if spec.below.is_empty() {
        return Ok(None);
    }
    match condition(alloc, true, place, text) {
        Ok(_) => Ok(Some(RecipeFault::Unsupported(place))),
        Err(RecipeFault::OutOfMemory) => Err(AllocError),
        Err(fault) => Ok(Some(fault)),
    }
}

/// The outermost fault counts.
fn first_fault(outer: Option<RecipeFault>, own: Option<RecipeFault>) -> Option<RecipeFault>
    ensures { result ≡ outermost_fault outer own }
{
    match outer {
        None => own,
        Some(fault) => Some(fault),
    }
}

/// The head with this text, in those around it.
fn head(alloc: Global, around: Option<&Head>, place: u64, text: &[u8]) -> Result<Head, RecipeFault>
    ensures { Is result (head (option_copied around.entry) place text.now) }
{
    let spec = condition(alloc, false, place, text)?;
    let own = own_fault(alloc, &spec, place, text)?;
    Ok(Head {
        when: when_of(alloc, around, Some(spec))?,
        nested: first_fault(nested_in(around), own),
    })
}

/// The first heads, so many as a depth says, and one more.
fn entered(heads: List<Head>, depth: u64, head: Head) -> Result<List<Head>, AllocError>
    ensures { IfOk result (λ new. new ≡ take depth heads ++ head ∷ []) }
{
    let mut heads = heads.into_vec();
    heads.truncate(depth as usize);
    heads.push(head)?;
    Ok(List::from_vec(heads))
}

/// A block begins.
fn enter(alloc: Global, depth: u64, state: &mut State, head: Head) -> Result<(), AllocError>
    ensures { OnOk result (state.new ≡ enter_head depth state.old head) }
{
    let heads = mem::replace(&mut state.heads, List::new(alloc));
    state.heads = entered(heads, depth, head)?;
    Ok(())
}

/// The head of a block, whose strings are these.
fn read_head(
    alloc: Global,
    bytes: &[u8],
    texts: &[Token],
    around: Option<&Head>,
) -> Result<Head, RecipeFault>
    ensures { Is result (then_do (as_recipe_step (strings_text bytes.now texts.now))
        (head (option_copied around.entry) (first_start texts.now))) }
{
    match read_text(alloc, bytes, texts) {
        Ok(text) => head(alloc, around, start_of(texts), text.as_str().as_bytes()),
        Err(ValueFault::Unsupported(place)) => Err(RecipeFault::Unsupported(place)),
        Err(ValueFault::OutOfMemory) => Err(RecipeFault::OutOfMemory),
    }
}

/// `with when(TEXT):`, whose strings are these.
#[tactic(auto, unfolding(crate::specs::Recipes::with_head))]
fn with_head(
    alloc: Global,
    bytes: &[u8],
    texts: &[Token],
    depth: u64,
    state: &mut State,
) -> Result<(), RecipeFault>
    ensures { Gives result state.new (with_head bytes.now texts.now depth state.old) }
{
    let head = read_head(alloc, bytes, texts, innermost(&state.heads, depth))?;
    enter(alloc, depth, state, head)?;
    Ok(())
}

/// A `version` stands in no block, and a `provides` in none whose condition has `^`.
fn may_stand(directive: Directive, around: Option<&Head>, place: u64) -> Result<u64, RecipeFault>
    ensures { Is result (may_stand_in directive (option_copied around.entry) place) }
{
    match directive {
        Directive::Version if around.is_some() => Err(RecipeFault::Unsupported(place)),
        Directive::Provides => match nested_in(around) {
            None => Ok(place),
            Some(fault) => Err(fault),
        },
        _ => Ok(place),
    }
}

/// Adds the rows of a directive whose arguments were read, and which stands in so many heads.
fn add_given(
    alloc: Global,
    directive: Directive,
    place: u64,
    number: u64,
    given: &mut Given,
    depth: u64,
    state: &mut State,
) -> Result<(), RecipeFault>
    ensures { Gives result state.new
        (add_directive directive place number given.old
        (when_of (innermost state.old.heads depth) given.old) state.old) }
{
    let own = given.options.when.take();
    let when = when_of(alloc, innermost(&state.heads, depth), own)?;
    add(alloc, directive, place, number, given, when, state)
}

/// A directive at a byte, with what stands between its commas.
#[tactic(auto, unfolding(crate::specs::Recipes::call))]
fn call(
    alloc: Global,
    bytes: &[u8],
    directive: Directive,
    place: u64,
    number: u64,
    segments: Pile<Segment>,
    depth: u64,
    state: &mut State,
) -> Result<(), RecipeFault>
    ensures { Gives result state.new
        (call bytes.now directive place number segments
        (innermost state.old.heads depth) state.old) }
{
    may_stand(directive, innermost(&state.heads, depth), place)?;
    let mut given = arguments(alloc, bytes, directive, segments)?;
    add_given(alloc, directive, place, number, &mut given, depth, state)
}

/// An item; `number` counts the calls before it.
pub(crate) fn item(
    alloc: Global,
    bytes: &[u8],
    tokens: &[Token],
    number: u64,
    one: ClassItem,
    state: &mut State,
) -> Result<(), RecipeFault>
    ensures { Gives result state.new (item bytes.now tokens.now number one state.old) }
{
    match one {
        ClassItem::With { first, last, depth } => {
            let head = from(up_to(tokens, last.saturating_sub(1)), first);
            with_head(alloc, bytes, from(head, 3), depth, state)
        }
        ClassItem::Call { first, last, depth } => {
            let inner = from(from(up_to(tokens, last), first), 2);
            let behind = from(tokens, first);
            let Some(directive) = directive_of(first_word(bytes, behind)) else {
                return Err(RecipeFault::Unsupported(start_of(behind)));
            };
            let segments = recipe_values::arguments(
                alloc,
                bytes,
                inner,
                start_of(from(tokens, last)),
            )?;
            call(
                alloc,
                bytes,
                directive,
                start_of(behind),
                number,
                segments,
                depth,
                state,
            )
        }
    }
}
