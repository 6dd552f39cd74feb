// For each record those that need it.
ghost use Rattle.std.specs.Prelude.{◌≡◌, ◌<◌, ◌++◌, List, Some, length, OnOk, IfOk, slice_get};
ghost use Rattle.graph_core.specs.Graphs.{Text};
ghost use Rattle.graph_core.specs.OfReachability.Places.{AreNumbered};
ghost use Rattle.reuse_db.specs.Databases.{AreRecords, hashes_of};
ghost use Rattle.reuse_db.specs.declared.record.Record.{Record};
ghost use Rattle.spec_find.specs.Found.{is_kept, links_of, links_in};
ghost use Rattle.spec_find.specs.Orders.{AreByHash};
ghost use Rattle.spec_find.specs.Marks.{AreParents, flipped};

use crate::order::{Placed, known_place};
use graph_core::heads_of;
use plain_data::List;
use reuse_db::{Dependency, Record};
use std::alloc::{AllocError, Global};

/// For each record the places of those that need it to link or to run.
pub(crate) fn parents_of(
    alloc: Global,
    records: &[Record],
    order: &[Placed],
) -> Result<Vec<List<usize>>, AllocError>
    requires right { AreRecords records.now }
    requires order { AreByHash records.now order.now }
    ensures { IfOk result (λ parents. AreParents records.now parents.items) }
{
    let arcs = arcs_to_parents(alloc, records, order)?;
    heads_of(alloc, records.len(), arcs.as_slice())
}

/// The place of each record that is needed, with that of the one that needs it.
fn arcs_to_parents(
    alloc: Global,
    records: &[Record],
    order: &[Placed],
) -> Result<Vec<(usize, usize)>, AllocError>
    requires right { AreRecords records.now }
    requires order { AreByHash records.now order.now }
    ensures { IfOk result (λ arcs. AreNumbered (hashes_of records.now)
        (flipped (links_in records.now)) arcs.items) }
{
    let mut arcs = Vec::new(alloc);
    for place in 0..records.len() {
        add_arcs(records, order, place, &mut arcs)?;
    }
    Ok(arcs)
}

/// Adds those of the record at a place.
fn add_arcs(
    records: &[Record],
    order: &[Placed],
    place: usize,
    arcs: &mut Vec<(usize, usize)>,
) -> Result<(), AllocError>
    requires right { AreRecords records.now }
    requires order { AreByHash records.now order.now }
    requires place { place < length records.now }
    ensures { OnOk result ((links : List (Text × Text)) (entry : Record)
        → slice_get records.now place ≡ Some entry
        → AreNumbered (hashes_of records.now) links arcs.old.items
        → AreNumbered (hashes_of records.now) (links ++ flipped (links_of entry)) arcs.new.items) }
{
    let entry = &records[place];
    for needed in entry.dependencies.as_slice() {
        if is_kept(needed) {
            arcs.push((known_place(records, order, needed.hash.as_str()), place))?;
        }
    }
    Ok(())
}

fn is_kept(needed: &Dependency) -> bool
    ensures { result ≡ is_kept needed.now }
{
    needed.kinds.link || needed.kinds.run
}
