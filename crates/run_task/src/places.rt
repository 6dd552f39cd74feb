//! Where the files of one root of many stand.

ghost use Rattle.std.specs.Prelude.{◌≡◌, IfOk};
ghost use Rattle.std.specs.String.{string_bytes};
ghost use Rattle.run_task.specs.Places as places;

use std::alloc::{AllocError, Global};

/// The lock file of the root with a number: `DIR/N.lock`.
#[tactic(auto, unfolding(crate::specs::Places::lock_at))]
pub fn lock_at(alloc: Global, dir: &str, root: u64) -> Result<String, AllocError>
    ensures { IfOk result (λ path. string_bytes path ≡ places.lock_at dir.now root) }
{
    format!(in alloc; "{dir}/{root}.lock")
}

/// Its certificate: `DIR/N.cert`.
#[tactic(auto, unfolding(crate::specs::Places::cert_at))]
pub fn cert_at(alloc: Global, dir: &str, root: u64) -> Result<String, AllocError>
    ensures { IfOk result (λ path. string_bytes path ≡ places.cert_at dir.now root) }
{
    format!(in alloc; "{dir}/{root}.cert")
}
