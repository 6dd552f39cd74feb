//! A text cut into pieces: the one at its front, whatever stood before it.

ghost use Rattle.std.specs.Prelude.{◌≡◌, ◌<◌, ◌≤◌, ◌+◌, ◌^◌, length, true, false, IfSome, IsTrue};
ghost use Rattle.std.specs.List.{prefix_len};
ghost use Rattle.recipe_lexer.specs.Pieces.{is_line_white, is_word_byte, is_line_byte, is_prefix_letter, is_string_prefix, starts_with_mark, ends_line, marks, closes, breaks, opening, text_end, text_piece_by, string_piece, solid, first_piece};

/// What a piece is, in the definition of a file's tokens.
#[derive(Clone, Copy, Debug)]
pub enum Shape {
    /// White space inside a line.
    White,
    /// A comment, or a backslash with the line feed behind it.
    Passed,
    /// A line feed.
    LineEnd,
    /// A run of letters, digits, `_` and bytes from 128 up.
    Word,
    /// A string with its prefix.
    Text,
    /// A string that does not end, with the place of its opening mark.
    Unclosed(u64),
    /// Any other byte.
    Op(u8),
}

/// A piece of a file: the slice from byte `start` up to byte `end`.
#[derive(Clone, Copy, Debug)]
pub struct Piece {
    pub shape: Shape,
    pub start: u64,
    pub end: u64,
}

/// Space, tab, form feed and carriage return.
fn is_white(b: u8) -> bool
    ensures { result ≡ is_line_white b }
{
    b == b' ' || b == b'\t' || b == 12 || b == b'\r'
}

/// A byte of a word.
fn is_word_byte(b: u8) -> bool
    ensures { result ≡ is_word_byte b }
{
    b.is_ascii_alphabetic() || b.is_ascii_digit() || b == b'_' || b >= 128
}

/// A letter of a string's prefix.
fn is_prefix_letter(b: u8) -> bool
    ensures { result ≡ is_prefix_letter b }
{
    matches!(b, b'r' | b'b' | b'f' | b'u' | b'R' | b'B' | b'F' | b'U')
}

/// How long the white space at the front is.
fn white_len(text: &[u8]) -> usize
    ensures bound { result ≤ length text.now }
    ensures value { result ≡ prefix_len is_line_white text.now }
{
    text.iter().take_while(|b| is_white(**b)).count()
}

/// How long the rest of the line is.
fn line_len(text: &[u8]) -> usize
    ensures bound { result ≤ length text.now }
    ensures value { result ≡ prefix_len is_line_byte text.now }
{
    text.iter().take_while(|b| **b != b'\n').count()
}

/// How long the word at the front is, 0 for none.
fn word_len(text: &[u8]) -> usize
    ensures bound { result ≤ length text.now }
    ensures value { result ≡ prefix_len is_word_byte text.now }
{
    text.iter().take_while(|b| is_word_byte(**b)).count()
}

/// Whether a word, or none, is a string's prefix.
fn is_prefix(word: &[u8]) -> bool
    ensures { result ≡ is_string_prefix word.now }
{
    match word {
        [] => true,
        [a] => is_prefix_letter(*a),
        [a, b] => is_prefix_letter(*a) && is_prefix_letter(*b),
        _ => false,
    }
}

/// Whether a quotation mark comes next.
fn starts_with_mark(text: &[u8]) -> bool
    ensures { result ≡ starts_with_mark text.now }
{
    match text {
        [] => false,
        [b, ..] => *b == b'"' || *b == b'\'',
    }
}

/// Whether a line feed comes next.
fn ends_line(text: &[u8]) -> bool
    ensures { result ≡ ends_line text.now }
{
    match text {
        [] => false,
        [b, ..] => *b == b'\n',
    }
}

/// How many marks `q` stand at the front, 3 for more.
fn marks(q: u8, text: &[u8]) -> usize
    ensures bound { result ≤ length text.now }
    ensures three { result ≤ 3 }
    ensures value { result ≡ marks q text.now }
{
    text.iter().take(3).take_while(|b| **b == q).count()
}

/// Whether `k` marks `q` stand at the front, which end a string that so many opened.
#[tactic(auto, unfolding(crate::specs::Pieces::closes))]
fn closes(q: u8, k: usize, text: &[u8]) -> bool
    ensures bound { IsTrue result → k ≤ length text.now }
    ensures value { result ≡ closes q k text.now }
{
    k <= marks(q, text)
}

/// Whether a byte ends a line inside a string that one mark opened.
#[tactic(auto, unfolding(crate::specs::Pieces::breaks))]
fn breaks(k: usize, b: u8) -> bool
    ensures { result ≡ breaks k b }
{
    k == 1 && b == b'\n'
}

/// The place behind the marks that end a string; `text` is what stands behind its opening marks, at `place`.
fn text_end(q: u8, k: usize, place: usize, text: &[u8]) -> Option<usize>
    requires { place + length text.now < 2 ^ 64 }
    ensures bound { IfSome result (λ end. end ≤ place + length text.now) }
    ensures value { result ≡ text_end q k false place text.now }
{
    let mut taken = false;
    for (i, b) in text.iter().enumerate() {
        if taken {
            taken = false;
            continue;
        }
        if closes(q, k, &text[i..]) {
            return Some(place + i + k);
        }
        if breaks(k, *b) {
            return None;
        }
        taken = *b == b'\\';
    }
    None
}

/// How many marks open a string.
fn opening(q: u8, text: &[u8]) -> usize
    ensures bound { 1 ≤ length text.now → result ≤ length text.now }
    ensures value { result ≡ opening q text.now }
{
    if marks(q, text) == 3 { 3 } else { 1 }
}

/// A string that ends at `end`, or does not.
fn text_by(start: usize, mark: usize, end: Option<usize>) -> Piece
    requires { mark + 1 < 2 ^ 64 }
    ensures { result ≡ text_piece_by start mark end }
{
    match end {
        None => Piece {
            shape: Shape::Unclosed(mark as u64),
            start: start as u64,
            end: mark as u64 + 1,
        },
        Some(end) => Piece {
            shape: Shape::Text,
            start: start as u64,
            end: end as u64,
        },
    }
}

/// A string that starts at `start`; `text` begins at its first mark, at `mark`.
#[tactic(auto, unfolding(crate::specs::Pieces::string_piece))]
fn string(start: usize, mark: usize, text: &[u8]) -> Piece
    requires room { mark + length text.now + 1 < 2 ^ 64 }
    ensures { result ≡ string_piece start mark text.now }
{
    match text {
        [] => text_by(start, mark, None),
        [q, ..] => {
            let k = opening(*q, text);
            text_by(start, mark, text_end(*q, k, mark + k, &text[k..]))
        }
    }
}

/// A string with its prefix, or a word, or a sign.
#[tactic(auto, unfolding(crate::specs::Pieces::solid))]
fn solid(place: usize, n: usize, text: &[u8]) -> Piece
    requires room { place + length text.now + 1 < 2 ^ 64 }
    requires within { n ≤ length text.now }
    ensures { result ≡ solid place n text.now }
{
    let Some(b) = text.first() else {
        return text_by(place, place, None);
    };
    let (word, rest) = text.split_at(n);
    if is_prefix(word) && starts_with_mark(rest) {
        return string(place, place + n, rest);
    }
    if n > 0 {
        return Piece {
            shape: Shape::Word,
            start: place as u64,
            end: (place + n) as u64,
        };
    }
    Piece {
        shape: Shape::Op(*b),
        start: place as u64,
        end: place as u64 + 1,
    }
}

/// The piece at the front of a text, which stands at `place`.
#[tactic(auto, unfolding(crate::specs::Pieces::first_piece))]
pub(crate) fn first_piece(place: usize, text: &[u8]) -> Piece
    requires room { place + length text.now + 1 < 2 ^ 64 }
    ensures { result ≡ first_piece place text.now }
{
    let Some((b, rest)) = text.split_first() else {
        return text_by(place, place, None);
    };
    let (shape, length) = match *b {
        b'\n' => (Shape::LineEnd, 1),
        b' ' | b'\t' | 12 | b'\r' => (Shape::White, white_len(text)),
        b'#' => (Shape::Passed, line_len(text)),
        b'\\' if ends_line(rest) => (Shape::Passed, 2),
        _ => return solid(place, word_len(text), text),
    };
    Piece {
        shape,
        start: place as u64,
        end: (place + length) as u64,
    }
}
