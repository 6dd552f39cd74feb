//! Lines and their indentation.

ghost use Rattle.std.specs.Prelude.{◌≡◌, ◌<◌, ◌≤◌, ◌+◌, ◌^◌, length, Ok};
ghost use Rattle.std.specs.List.{prefix_len};
ghost use Rattle.recipe_lexer.specs.Layout.{view, Gives, put_token, slice, is_no_tab, spaces, dedents, indent, indented, begin, line_end_by};

use crate::{LexFault, Token, TokenKind};

/// Where a line stands, in the definition of a file's tokens.
#[derive(Clone, Copy, Debug)]
pub enum LineState {
    /// It has a token.
    Begun,
    /// It has none yet; its indentation is the slice from the first place to the second.
    Blank(u64, u64),
}

/// An open bracket, in the definition of a file's tokens.
#[derive(Clone, Copy, Debug)]
pub struct Opened {
    /// Where it stands.
    pub place: u64,
    /// The byte that closes it.
    pub closing: u8,
}

/// What stands between two pieces.
#[derive(Debug, Drop)]
pub(crate) struct Lexer {
    /// The line so far.
    pub line: LineState,
    /// The open brackets, the innermost last.
    pub brackets: Vec<Opened>,
    /// The indentations of the open blocks, the innermost last.
    pub indents: Vec<u64>,
    /// Whether the last token that is no line end is `:`.
    pub colon: bool,
    /// The tokens so far.
    pub tokens: Vec<Token>,
}

/// Adds a token.
pub(crate) fn put(lexer: &mut Lexer, kind: TokenKind, start: u64, end: u64) -> Result<(), LexFault>
    ensures { Gives result lexer.new (Ok (put_token kind start end (view lexer.old))) }
{
    lexer.tokens.push(Token { kind, start, end })?;
    Ok(())
}

/// The bytes from one place up to another, as far as there are any.
pub(crate) fn slice(bytes: &[u8], start: u64, end: u64) -> &[u8]
    ensures bound { 0 < length result.now → start + length result.now ≤ length bytes.now }
    ensures value { result.now ≡ slice bytes.now start end }
{
    let start = start as usize;
    let count = (end as usize).saturating_sub(start);
    if start >= bytes.len() {
        return &[];
    }
    let rest = &bytes[start..];
    if count >= rest.len() {
        return rest;
    }
    &rest[..count]
}

/// The place of the first tab, or the length.
fn tab_place(white: &[u8]) -> usize
    ensures { result ≡ prefix_len is_no_tab white.now }
{
    white.iter().take_while(|b| **b != b'\t').count()
}

/// How many spaces stand in an indentation.
fn spaces(white: &[u8]) -> usize
    ensures { result ≡ spaces white.now }
{
    white.iter().filter(|b| **b == b' ').count()
}

/// Ends the blocks that an indentation of `spaces` spaces ends; the line starts at `start`, and the
/// indentation ends at `place`.
pub(crate) fn dedents(
    lexer: &mut Lexer,
    start: u64,
    place: u64,
    spaces: u64,
) -> Result<(), LexFault>
    ensures { Gives result lexer.new
        (dedents start place spaces (view lexer.old).indents (view lexer.old)) }
{
    loop {
        match lexer.indents.last().copied() {
            None => {
                if spaces == 0 {
                    return Ok(());
                }
                return Err(LexFault::BadIndent(start));
            }
            Some(top) => {
                if spaces == top {
                    return Ok(());
                }
                if spaces > top {
                    return Err(LexFault::BadIndent(start));
                }
                lexer.indents.pop();
                put(lexer, TokenKind::Dedent, place, place)?;
            }
        }
    }
}

/// A line with so many spaces begins.
#[tactic(auto, unfolding(crate::specs::Layout::indent))]
fn indent(lexer: &mut Lexer, start: u64, place: u64, spaces: u64) -> Result<(), LexFault>
    ensures { Gives result lexer.new (indent start place spaces (view lexer.old)) }
{
    let top = lexer.indents.last().copied().unwrap_or(0);
    if spaces <= top {
        return dedents(lexer, start, place, spaces);
    }
    if !lexer.colon {
        return Err(LexFault::BadIndent(start));
    }
    lexer.indents.push(spaces)?;
    put(lexer, TokenKind::Indent, start, place)
}

/// A line with this indentation begins.
#[tactic(auto, unfolding(crate::specs::Layout::indented))]
fn indented(lexer: &mut Lexer, start: u64, place: u64, white: &[u8]) -> Result<(), LexFault>
    requires { 0 < length white.now → start + length white.now < 2 ^ 64 }
    ensures { Gives result lexer.new (indented start place white.now (view lexer.old)) }
{
    let tab = tab_place(white);
    if tab < white.len() {
        return Err(LexFault::BadIndent(start + tab as u64));
    }
    indent(lexer, start, place, spaces(white) as u64)
}

/// A token comes: the first one of a line ends its indentation.
#[tactic(auto, unfolding(crate::specs::Layout::begin))]
pub(crate) fn begin(lexer: &mut Lexer, bytes: &[u8]) -> Result<(), LexFault>
    ensures { Gives result lexer.new (begin bytes.now (view lexer.old)) }
{
    match lexer.line {
        LineState::Begun => Ok(()),
        LineState::Blank(start, end) => {
            lexer.line = LineState::Begun;
            indented(lexer, start, end, slice(bytes, start, end))
        }
    }
}

/// A line feed comes: inside brackets and in lines without a token it gives nothing.
pub(crate) fn line_end(lexer: &mut Lexer, start: u64, end: u64) -> Result<(), LexFault>
    ensures { Gives result lexer.new
        (Ok (line_end_by start end (view lexer.old).brackets lexer.old.line (view lexer.old))) }
{
    if !lexer.brackets.is_empty() {
        return Ok(());
    }
    let line = lexer.line;
    lexer.line = LineState::Blank(end, end);
    match line {
        LineState::Begun => put(lexer, TokenKind::NewLine, start, end),
        LineState::Blank(_, _) => Ok(()),
    }
}
