// Tests of origins.
ghost use Rattle.std.specs.Prelude.{◌≡◌};
ghost use Rattle.graph_core.specs.declared.node.Origin.TheVariants.{External, Installed};
ghost use Rattle.graph_formulas.specs.Kept.{installs};
ghost use Rattle.problem.specs.Nodes.{same_origin};

use graph_core::Origin;
use spec_hash::Hash;

/// Whether an origin is installed with this hash.
pub(crate) fn installs(hash: &Hash, origin: &Origin) -> bool
    ensures { result ≡ installs hash.now origin.now }
{
    match origin {
        Origin::Installed(own) => own == hash,
        Origin::Built | Origin::External(_) => false,
    }
}

fn is_external(place: u64, origin: &Origin) -> bool
    ensures { result ≡ same_origin (External place) origin.now }
{
    match origin {
        Origin::External(other) => place == *other,
        Origin::Built | Origin::Installed(_) => false,
    }
}

fn is_installed(hash: &Hash, origin: &Origin) -> bool
    ensures { result ≡ same_origin (Installed hash.now) origin.now }
{
    match origin {
        Origin::Installed(other) => hash == other,
        Origin::Built | Origin::External(_) => false,
    }
}

/// Whether two origins are the same.
pub(crate) fn same_origin(origin: &Origin, other: &Origin) -> bool
    ensures { result ≡ same_origin origin.now other.now }
{
    match origin {
        Origin::Built => matches!(other, Origin::Built),
        Origin::External(place) => is_external(*place, other),
        Origin::Installed(hash) => is_installed(hash, other),
    }
}
