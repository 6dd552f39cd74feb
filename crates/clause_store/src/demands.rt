//! Which clauses are labelled with demands.
ghost use Rattle.std.specs.Prelude.{◌≡◌, OnOk, OnErr};
ghost use Rattle.clause_store.specs.Kept.{AreRising, with_label, label_at};

use crate::Label;
use std::alloc::AllocError;

/// The clause at this place is there for a demand.
#[derive(Debug, Clone, Copy)]
pub(crate) struct Demanded {
    pub(crate) place: usize,
    pub(crate) demand: u64,
}

/// Notes the label of the clause at a place behind the others. After an error nothing is noted.
pub(crate) fn note(
    demands: &mut Vec<Demanded>,
    place: usize,
    label: Label,
) -> Result<(), AllocError>
    ensures ok { OnOk result (demands.new.items ≡ with_label demands.old.items place label) }
    ensures err { OnErr result (demands.new.items ≡ demands.old.items) }
{
    if let Label::Demand(demand) = label {
        demands.push(Demanded { place, demand })?;
    }
    Ok(())
}

/// The label of the clause at a place: structure where no demand is noted.
pub(crate) fn label_at(demands: &[Demanded], place: usize) -> Label
    requires { AreRising demands.now }
    ensures { result ≡ label_at demands.now place }
{
    let at = demands.partition_point(|demanded| demanded.place < place);
    if at >= demands.len() {
        return Label::Structure;
    }
    let found = demands[at];
    if found.place == place {
        Label::Demand(found.demand)
    } else {
        Label::Structure
    }
}
