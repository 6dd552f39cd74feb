//! The lines of a text.

ghost use Rattle.std.specs.Prelude.{◌≡◌, ◌∷◌, ◌<◌, ◌≤◌, ◌==◌, not, take_while, length};
ghost use Rattle.scenario_reader.specs.Lines.{lines_of};

/// How many bytes stand before the first line feed.
fn line_len(text: &[u8]) -> usize
    ensures run { result ≡ length (take_while (λ b. not (b == 10)) text.now) }
    ensures bound { result ≤ length text.now }
{
    text.iter().take_while(|b| **b != b'\n').count()
}

/// The first line, without its line feed, and the text behind it.
pub(crate) fn next_line(text: &[u8]) -> (&[u8], &[u8])
    requires { 0 < length text.now }
    ensures lines { lines_of text.now ≡ result.0.now ∷ lines_of result.1.now }
    ensures shorter { length result.1.now < length text.now }
{
    let (line, rest) = text.split_at(line_len(text));
    if rest.is_empty() {
        return (line, rest);
    }
    let (_, more) = rest.split_at(1);
    (line, more)
}
