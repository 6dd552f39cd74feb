//! The brackets that a token stands in.

ghost use Rattle.std.specs.Prelude.{◌≡◌, ◌==◌, ◌||◌, drop, OnOk, IfOk};
ghost use Rattle.recipe_values.specs.Brackets.{nothing_before, ending, put_atom, cut, enter, leave, ends_bracket, begins_bracket, with_sign, with_kind, levels_of};

use crate::brackets::group;
use crate::{Atom, Pile, Segment};
use recipe_lexer::{Token, TokenKind};
use std::alloc::{AllocError, Global};
use std::mem::replace;

/// What is behind a token in a bracket.
#[derive(Debug, Drop)]
pub struct Level {
    /// What stands between the token and the next comma or the end of the bracket.
    pub here: Segment,
    /// What stands between the commas behind it.
    pub behind: Pile<Segment>,
}

/// What is behind a token in each of the brackets that it stands in.
#[derive(Debug, Drop)]
pub struct Levels {
    /// The innermost bracket.
    pub inner: Level,
    /// Those around it, from the inside.
    pub around: Pile<Level>,
}

/// The segment in front of this place with nothing in it yet.
fn nothing_before(alloc: Global, stop: u64) -> Segment
    ensures { result ≡ nothing_before stop }
{
    Segment {
        atoms: Pile::new(alloc),
        stop,
    }
}

/// A bracket that ends at this place, with nothing in it yet.
fn ending(alloc: Global, stop: u64) -> Level
    ensures { result ≡ ending stop }
{
    Level {
        here: nothing_before(alloc, stop),
        behind: Pile::new(alloc),
    }
}

/// Adds an atom in front.
fn put(levels: &mut Levels, atom: Atom) -> Result<(), AllocError>
    ensures { OnOk result (levels.new ≡ put_atom atom levels.old) }
{
    levels.inner.here.atoms.push(atom)?;
    Ok(())
}

/// Adds a comma in front.
fn cut(levels: &mut Levels, alloc: Global, place: u64) -> Result<(), AllocError>
    ensures { OnOk result (levels.new ≡ cut place levels.old) }
{
    let here = replace(&mut levels.inner.here, nothing_before(alloc, place));
    levels.inner.behind.push(here)?;
    Ok(())
}

/// Adds a closing bracket in front.
fn enter(levels: &mut Levels, alloc: Global, place: u64) -> Result<(), AllocError>
    ensures { OnOk result (levels.new ≡ enter place levels.old) }
{
    let inner = replace(&mut levels.inner, ending(alloc, place));
    levels.around.push(inner)?;
    Ok(())
}

/// Adds an opening bracket in front.
fn leave(
    levels: &mut Levels,
    alloc: Global,
    bytes: &[u8],
    sign: u8,
    place: u64,
) -> Result<(), AllocError>
    ensures { OnOk result (levels.new ≡ leave bytes.now sign place levels.old) }
{
    match levels.around.pop() {
        None => Ok(()),
        Some(outer) => {
            let level = replace(&mut levels.inner, outer);
            let read = group(alloc, bytes, sign, place, level)?;
            put(levels, Atom::Inner(place, read))?;
            Ok(())
        }
    }
}

fn ends_bracket(b: u8) -> bool
    ensures { result ≡ ends_bracket b }
{
    b == b')' || b == b']' || b == b'}'
}

fn begins_bracket(b: u8) -> bool
    ensures { result ≡ begins_bracket b }
{
    b == b'(' || b == b'[' || b == b'{'
}

/// Adds a sign in front.
fn add_sign(
    levels: &mut Levels,
    alloc: Global,
    bytes: &[u8],
    b: u8,
    token: Token,
) -> Result<(), AllocError>
    ensures { OnOk result (levels.new ≡ with_sign bytes.now b token levels.old) }
{
    if ends_bracket(b) {
        enter(levels, alloc, token.start)?;
        return Ok(());
    }
    if begins_bracket(b) {
        leave(levels, alloc, bytes, b, token.start)?;
        return Ok(());
    }
    if b == b',' {
        cut(levels, alloc, token.start)?;
        return Ok(());
    }
    put(levels, Atom::Plain(token))?;
    Ok(())
}

/// Adds a token in front.
fn add_token(
    levels: &mut Levels,
    alloc: Global,
    bytes: &[u8],
    token: Token,
) -> Result<(), AllocError>
    ensures { OnOk result (levels.new ≡ with_kind bytes.now token.kind token levels.old) }
{
    match token.kind {
        TokenKind::Op(b) => {
            add_sign(levels, alloc, bytes, b, token)?;
            Ok(())
        }
        _ => {
            put(levels, Atom::Plain(token))?;
            Ok(())
        }
    }
}

/// The brackets that a list of tokens stands in, which ends in front of `stop`.
pub(crate) fn levels_of(
    alloc: Global,
    bytes: &[u8],
    tokens: &[Token],
    stop: u64,
) -> Result<Levels, AllocError>
    ensures { IfOk result (λ levels. levels ≡ levels_of bytes.now stop tokens.now) }
{
    let mut levels = Levels {
        inner: ending(alloc, stop),
        around: Pile::new(alloc),
    };
    for i in (0..tokens.len()).rev() {
        add_token(&mut levels, alloc, bytes, tokens[i])?;
    }
    Ok(levels)
}
