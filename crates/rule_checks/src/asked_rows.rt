//! The `depends_on` of a package, found by the names that they ask for.
ghost use Rattle.std.specs.Prelude.{◌≡◌, IfOk};
ghost use Rattle.keyed_lists.specs.Lent.{IsIndexOf};
ghost use Rattle.rule_checks.specs.Asked.{asked_text};

use keyed_lists::TextIndex;
use recipe_data::DependRow;
use std::alloc::{AllocError, Global};

fn asked_text(row: &DependRow) -> &str
    ensures { result.now ≡ asked_text row.now }
{
    match &row.part.name {
        Some(name) => name.as_str(),
        None => "",
    }
}

/// The rows by the names that they ask for. Takes n log n comparisons for n rows.
pub(crate) fn rows_by_text<'a>(
    alloc: Global,
    rows: &'a [DependRow],
) -> Result<TextIndex<'a, DependRow>, AllocError>
    ensures { IfOk result (IsIndexOf asked_text rows.now) }
{
    let mut entries = Vec::new(alloc);
    for row in rows {
        entries.push((asked_text(row), row))?;
    }
    TextIndex::new(entries)
}
