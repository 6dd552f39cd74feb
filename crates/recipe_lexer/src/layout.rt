//! Brackets, and the pieces laid out one after the other.

ghost use Rattle.std.specs.Prelude.{◌≡◌, length, Ok, IfOk, IfErr};
ghost use Rattle.std.specs.Str.{is_utf8};
ghost use Rattle.recipe_lexer.specs.Layout.{then_lex, view, Gives, Fails, put_solid, closing, close, bracket, step, text_pieces, lay, finish, tokens};

use crate::line::{Lexer, LineState, Opened, begin, dedents, line_end, put};
use crate::piece::{Piece, Shape, first_piece};
use crate::{LexFault, Token, TokenKind};
use plain_data::List;
use std::alloc::Global;

/// How many bytes a token takes at the least in most recipes, where those without a token count too: with room for so
/// many tokens from the first on, the list is moved in few files.
const BYTES_OF_TOKEN: usize = 5;

/// The bracket that closes this one.
fn closing(b: u8) -> Option<u8>
    ensures { result ≡ closing b }
{
    match b {
        b'(' => Some(b')'),
        b'[' => Some(b']'),
        b'{' => Some(b'}'),
        _ => None,
    }
}

/// A closing bracket comes: it fits the innermost open one or none.
fn close(lexer: &mut Lexer, place: u64, b: u8) -> Result<(), LexFault>
    ensures { Gives result lexer.new (close place b (view lexer.old).brackets (view lexer.old)) }
{
    match lexer.brackets.pop() {
        Some(inner) if inner.closing == b => Ok(()),
        _ => Err(LexFault::OpenBracket(place)),
    }
}

/// What a sign does to the open brackets.
#[tactic(auto, unfolding(crate::specs::Layout::bracket))]
fn bracket(lexer: &mut Lexer, place: u64, b: u8) -> Result<(), LexFault>
    ensures { Gives result lexer.new (bracket place b (view lexer.old)) }
{
    if let Some(closing) = closing(b) {
        lexer.brackets.push(Opened { place, closing })?;
        return Ok(());
    }
    match b {
        b')' | b']' | b'}' => close(lexer, place, b),
        _ => Ok(()),
    }
}

/// A word, a string or a sign is put.
fn put_solid(lexer: &mut Lexer, kind: TokenKind, piece: Piece, colon: bool) -> Result<(), LexFault>
    ensures { Gives result lexer.new
        (Ok (put_solid kind piece.start piece.end colon (view lexer.old))) }
{
    lexer.colon = colon;
    put(lexer, kind, piece.start, piece.end)
}

/// What a piece does.
#[tactic(auto, unfolding(crate::specs::Layout::step))]
fn step(lexer: &mut Lexer, bytes: &[u8], piece: Piece) -> Result<(), LexFault>
    ensures { Gives result lexer.new (step bytes.now piece (view lexer.old)) }
{
    match piece.shape {
        Shape::White => {
            match lexer.line {
                LineState::Blank(from, to) if to == piece.start => lexer.line = LineState::Blank(
                    from, piece.end,
                ),
                _ => {}
            }
            Ok(())
        }
        Shape::Passed => Ok(()),
        Shape::LineEnd => line_end(lexer, piece.start, piece.end),
        Shape::Word => {
            begin(lexer, bytes)?;
            put_solid(lexer, TokenKind::Word, piece, false)
        }
        Shape::Text => {
            begin(lexer, bytes)?;
            put_solid(lexer, TokenKind::Text, piece, false)
        }
        Shape::Unclosed(mark) => {
            begin(lexer, bytes)?;
            Err(LexFault::OpenString(mark))
        }
        Shape::Op(b) => {
            begin(lexer, bytes)?;
            bracket(lexer, piece.start, b)?;
            put_solid(lexer, TokenKind::Op(b), piece, b == b':')
        }
    }
}

/// The pieces, one after the other.
fn lay(lexer: &mut Lexer, bytes: &[u8]) -> Result<(), LexFault>
    ensures { Gives result lexer.new (lay bytes.now (text_pieces 0 0 bytes.now) (view lexer.old)) }
{
    let mut place = 0;
    'pieces: while place < bytes.len() {
        let piece = first_piece(place, &bytes[place..]);
        match step(lexer, bytes, piece) {
            Ok(()) => {}
            Err(fault) => return Err(fault),
        }
        place = piece.end as usize;
    }
    Ok(())
}

/// The end of the text.
#[tactic(auto, unfolding(crate::specs::Layout::finish))]
fn finish(lexer: &mut Lexer, end: u64) -> Result<(), LexFault>
    ensures { Gives result lexer.new (finish end (view lexer.old)) }
{
    if let Some(inner) = lexer.brackets.last().copied() {
        return Err(LexFault::OpenBracket(inner.place));
    }
    if let LineState::Begun = lexer.line {
        put(lexer, TokenKind::NewLine, end, end)?;
    }
    dedents(lexer, end, end, 0)?;
    put(lexer, TokenKind::End, end, end)
}

/// The whole text.
fn read(lexer: &mut Lexer, bytes: &[u8]) -> Result<(), LexFault>
    ensures { Gives result lexer.new
        (then_lex (lay bytes.now (text_pieces 0 0 bytes.now) (view lexer.old))
        (finish (length bytes.now))) }
{
    match lay(lexer, bytes) {
        Ok(()) => finish(lexer, bytes.len() as u64),
        Err(fault) => Err(fault),
    }
}

/// Whether the bytes are UTF-8.
fn is_utf8(bytes: &[u8]) -> bool
    ensures { result ≡ is_utf8 bytes.now }
{
    match str::from_utf8(bytes) {
        Ok(_) => true,
        Err(_) => false,
    }
}

/// The tokens of a file in their order, or its first fault.
///
/// A `#` outside strings begins a comment up to the line's end. A string stands in `'`, `"`, `'''` or
/// `"""`, behind a prefix of at most two of the letters r, b, f and u in any case; a backslash takes the
/// next byte with it, and a string in single marks ends before its line does. A backslash before a line
/// feed joins two lines. Inside brackets there are no line ends and no indentation. Lines without a token
/// are skipped. White space is space, tab, carriage return and form feed; an indentation counts spaces.
#[tactic(auto, unfolding(crate::specs::Layout::text_tokens))]
pub fn lex(alloc: Global, bytes: &[u8]) -> Result<List<Token>, LexFault>
    ensures found { IfOk result (λ found. tokens bytes.now ≡ Ok found) }
    ensures fault { IfErr result (λ fault. Fails fault (tokens bytes.now)) }
{
    if !is_utf8(bytes) {
        return Err(LexFault::NotUtf8);
    }
    let mut lexer = Lexer {
        line: LineState::Blank(0, 0),
        brackets: Vec::new(alloc),
        indents: Vec::new(alloc),
        colon: false,
        tokens: Vec::with_capacity(alloc, bytes.len() / BYTES_OF_TOKEN)?,
    };
    match read(&mut lexer, bytes) {
        Ok(()) => Ok(List::from_vec(lexer.tokens)),
        Err(fault) => Err(fault),
    }
}
