//! A list in parts, one after another: what each part holds, by where the parts end.
ghost use Rattle.std.specs.Prelude.{◌≡◌, ◌<◌, ◌≤◌, length, slice_range};
ghost use Rattle.clause_store.specs.Kept.{IsCut, start_of, part_of};

/// The part at a place; `ends` says where each ends, and the first begins at 0.
pub fn part<'a, T>(items: &'a [T], ends: &[usize], place: usize) -> &'a [T]
    requires cut { IsCut 0 ends.now (length items.now) }
    requires place { place < length ends.now }
    ensures { result.now ≡ part_of items.now ends.now place }
{
    between(items, start_of(ends, place), ends[place])
}

fn between<T>(items: &[T], start: usize, end: usize) -> &[T]
    requires order { start ≤ end }
    requires within { end ≤ length items.now }
    ensures { result.now ≡ slice_range items.now start end }
{
    &items[start..end]
}

// Where the part at a place begins.
fn start_of(ends: &[usize], place: usize) -> usize
    requires { place < length ends.now }
    ensures { result ≡ start_of 0 ends.now place }
{
    if place == 0 { 0 } else { ends[place - 1] }
}
