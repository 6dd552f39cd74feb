//! A version's text as the list of its components.

ghost use Rattle.std.specs.Prelude.{◌≡◌, ◌<◌, ◌≤◌, ◌∷◌, [], length, IfSome, IfNone};
ghost use Rattle.std.specs.List.{prefix_len};
ghost use Rattle.version_order.specs.Signs.{is_separator};
ghost use Rattle.version_order.specs.Pieces.{are_alike, pieces};

fn is_separator(b: u8) -> bool
    ensures { result ≡ is_separator b }
{
    b == b'.' || b == b'-' || b == b'_'
}

/// Whether `c` may stand in one component with `b`.
fn are_alike(b: u8, c: u8) -> bool
    ensures { result ≡ are_alike b c }
{
    if b.is_ascii_digit() {
        c.is_ascii_digit()
    } else {
        !(c.is_ascii_digit() || is_separator(c))
    }
}

/// How many bytes at the front may stand in one component with `b`.
fn run_length(b: u8, text: &[u8]) -> usize
    ensures bound { result ≤ length text.now }
    ensures value { result ≡ prefix_len (are_alike b) text.now }
{
    text.iter().take_while(|c| are_alike(b, **c)).count()
}

/// The first component, and the text after it.
pub(crate) fn next_piece(text: &[u8]) -> Option<(&[u8], &[u8])>
    ensures none { IfNone result (pieces text.now ≡ []) }
    ensures some { IfSome result (λ x. pieces text.now ≡ x.0.now ∷ pieces x.1.now) }
    ensures shorter { IfSome result (λ x. length x.1.now < length text.now) }
{
    for (start, b) in text.iter().enumerate() {
        if !is_separator(*b) {
            let count = run_length(*b, &text[start + 1..]);
            return Some(text[start..].split_at(count + 1));
        }
    }
    None
}
