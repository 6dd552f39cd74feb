//! One byte of a quoted line.

ghost use Rattle.std.specs.Prelude.{◌≡◌, ◌<◌, IfSome};
ghost use Rattle.scenario_reader.specs.Quotes.{escape_of, hex_of, next, at_end};

/// What stands before a place of a quoted line.
#[derive(Clone, Copy, Debug)]
pub(crate) enum Mode {
    /// A part begins.
    Start,
    /// In the text of a part.
    Inside,
    /// After `\`.
    Escape,
    /// After `\x`.
    First,
    /// After `\x` and a digit of this value.
    Second(u8),
    /// After the closing quotation mark.
    Closed,
    /// After that and a blank.
    Gap,
    /// After that and `*`.
    Star,
    /// After that and a blank.
    Number,
    /// In the number, which is this so far.
    Count(u64),
}

/// What a byte does.
#[derive(Clone, Copy, Debug)]
pub(crate) enum Act {
    Nothing,
    /// The part has this byte more.
    Byte(u8),
    /// The part is over, and counts this often.
    Times(u64),
}

/// The byte that a letter behind `\` stands for.
fn escape_of(b: u8) -> Option<u8>
    ensures { result ≡ escape_of b }
{
    match b {
        b'n' => Some(b'\n'),
        b't' => Some(b'\t'),
        b'r' => Some(b'\r'),
        b'"' => Some(b'"'),
        b'\\' => Some(b'\\'),
        _ => None,
    }
}

/// The value of a digit of base 16.
fn hex_of(b: u8) -> Option<u8>
    ensures value { result ≡ hex_of b }
    ensures bound { IfSome result (λ n. n < 16) }
{
    match b {
        b'0'..=b'9' => Some(b - b'0'),
        b'a'..=b'f' => Some(b - b'a' + 10),
        _ => None,
    }
}

fn after_escape(b: u8) -> Option<(Mode, Act)>
    ensures { result ≡ next Mode.Escape b }
{
    if b == b'x' {
        return Some((Mode::First, Act::Nothing));
    }
    let c = escape_of(b)?;
    Some((Mode::Inside, Act::Byte(c)))
}

/// Behind a digit of a count: the next one, or the space at its end.
fn in_number(count: u64, b: u8) -> Option<(Mode, Act)>
    ensures { result ≡ next (Mode.Count count) b }
{
    if b == b' ' {
        Some((Mode::Start, Act::Times(count)))
    } else if b.is_ascii_digit() && count < 1_000_000 {
        Some((Mode::Count(count * 10 + u64::from(b - b'0')), Act::Nothing))
    } else {
        None
    }
}

/// Where a byte leads and what it does; `None` where no quoted line has it here.
pub(crate) fn next(mode: Mode, b: u8) -> Option<(Mode, Act)>
    ensures { result ≡ next mode b }
{
    match (mode, b) {
        (Mode::Start, b'"') => Some((Mode::Inside, Act::Nothing)),
        (Mode::Inside, b'"') => Some((Mode::Closed, Act::Nothing)),
        (Mode::Inside, b'\\') => Some((Mode::Escape, Act::Nothing)),
        (Mode::Inside, _) => Some((Mode::Inside, Act::Byte(b))),
        (Mode::Escape, _) => after_escape(b),
        (Mode::First, _) => Some((Mode::Second(hex_of(b)?), Act::Nothing)),
        (Mode::Second(high), _) => Some((Mode::Inside, Act::Byte(high % 16 * 16 + hex_of(b)?))),
        (Mode::Closed, b' ') => Some((Mode::Gap, Act::Nothing)),
        (Mode::Gap, b'"') => Some((Mode::Inside, Act::Times(1))),
        (Mode::Gap, b'*') => Some((Mode::Star, Act::Nothing)),
        (Mode::Star, b' ') => Some((Mode::Number, Act::Nothing)),
        (Mode::Number, b'0'..=b'9') => Some((Mode::Count(u64::from(b - b'0')), Act::Nothing)),
        (Mode::Count(count), _) => in_number(count, b),
        _ => None,
    }
}

/// How often the last part counts; `None` where no quoted line ends here.
pub(crate) fn at_end(mode: Mode) -> Option<u64>
    ensures { result ≡ at_end mode }
{
    match mode {
        Mode::Closed => Some(1),
        Mode::Count(count) => Some(count),
        _ => None,
    }
}
