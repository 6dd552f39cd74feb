//! What holds of all lock files.
ghost use Rattle.std.specs.Prelude.{◌≡◌, ◌≢◌, ℕ, List};
ghost use Rattle.lockfile.specs.Faults.{IsLockFault};
ghost use Rattle.lockfile.specs.Locks.{IsLock};
ghost use Rattle.lockfile.specs.declared.fault.LockFault.{LockFault};
ghost use Rattle.lockfile.specs.declared.fault.LockFault.TheVariants.{OutOfMemory};
ghost use Rattle.lockfile.specs.declared.lock.Lock.{Lock};

use graph_core::graph_laws;
use keyed_lists::keyed_laws;
use plain_data::Word;
use spec_hash::Hash;

/// Bytes are one lock file at most, and have one fault at most besides want of memory; a lock file
/// is refused for want of memory alone.
pub fn lock_laws()
    ensures one_reading { (bytes : List ℕ) (a b : Lock) → IsLock bytes a → IsLock bytes b → a ≡ b }
    ensures one_fault { (bytes : List ℕ) (f g : LockFault) → IsLockFault bytes f
        → IsLockFault bytes g
        → f ≢ OutOfMemory → g ≢ OutOfMemory → f ≡ g }
    ensures right { (bytes : List ℕ) (lock : Lock) (f : LockFault) → IsLock bytes lock
        → IsLockFault bytes f
        → f ≡ OutOfMemory }
{
    graph_laws();
    keyed_laws::<(Word, Hash), Word>();
}
