//! Lines that begin a section.

ghost use Rattle.std.specs.Prelude.{◌≡◌};
ghost use Rattle.std.specs.Option.{option_copied};
ghost use Rattle.scenario_reader.specs.Marks.{has_front, is_framed, is_sign, is_name, between, mark_of};

/// What a line is.
#[derive(Clone, Copy, Debug)]
pub(crate) enum Mark {
    /// It belongs to the section that it stands in.
    Inside,
    /// It begins a section whose lines are taken as they are.
    Plain,
    /// It begins a section of quoted lines.
    Quoted,
    /// It begins with `-- `, and is none of these.
    Broken,
}

pub(crate) const PLAIN: &[u8] = b"-- ";

pub(crate) const QUOTED: &[u8] = b"-- quoted ";

const END: &[u8] = b" --";

/// Whether a line has this front.
pub(crate) fn has_front(front: &[u8], line: &[u8]) -> bool
    ensures { result ≡ has_front front.now line.now }
{
    line.len() >= front.len() && &line[..front.len()] == front
}

/// Whether a line has this front and ` --` at its end, which do not overlap.
fn is_framed(front: &[u8], line: &[u8]) -> bool
    ensures { result ≡ is_framed front.now line.now }
{
    line.len() >= front.len() + END.len()
        && &line[..front.len()] == front
        && &line[line.len() - END.len()..] == END
}

fn is_sign(b: Option<&u8>) -> bool
    ensures { result ≡ is_sign (option_copied b.entry) }
{
    match b {
        Some(b) => *b != b' ',
        None => false,
    }
}

/// Whether a name has a first and a last sign that are no blanks.
fn is_name(name: &[u8]) -> bool
    ensures { result ≡ is_name name.now }
{
    is_sign(name.first()) && is_sign(name.last())
}

/// What stands behind so many bytes and before ` --`.
pub(crate) fn between<'a>(front: &[u8], line: &'a [u8]) -> &'a [u8]
    ensures { result.now ≡ between front.now line.now }
{
    if line.len() < front.len() + END.len() {
        return &[];
    }
    &line[front.len()..line.len() - END.len()]
}

/// What a line is among markers.
#[tactic(auto, unfolding(crate::specs::Marks::mark_of))]
pub(crate) fn mark_of(line: &[u8]) -> Mark
    ensures { result ≡ mark_of line.now }
{
    if !has_front(PLAIN, line) {
        Mark::Inside
    } else if is_framed(QUOTED, line) {
        if is_name(between(QUOTED, line)) {
            Mark::Quoted
        } else {
            Mark::Broken
        }
    } else if is_framed(PLAIN, line) && is_name(between(PLAIN, line)) {
        Mark::Plain
    } else {
        Mark::Broken
    }
}
