//! What holds of files that are put, and of the lock files of valid graphs. What is proved is the
//! contract.
ghost use Rattle.std.specs.Prelude.{◌≡◌, ◌≢◌, ℕ, List, All, Some, None, true};
ghost use Rattle.std.specs.FinMap.{get, insert};
ghost use Rattle.std.specs.Str.{IsUtf8};
ghost use Rattle.outside_desk.specs.Files.{Files};
ghost use Rattle.outside_desk.specs.Listing.{name_below, names_in};
ghost use Rattle.json_readers.specs.Json.{IsJson};
ghost use Rattle.spec_grammar.specs.Canonical.{spec_text};
ghost use Rattle.graph_core.specs.Graphs.{Content};
ghost use Rattle.reuse_db.specs.Databases.{AreRecords};
ghost use Rattle.lock_writer.specs.Texts.{lock_data};
ghost use Rattle.lockfile.specs.Locks.{IsLock};
ghost use Rattle.lockfile.specs.Writable.{lock_of};
ghost use Rattle.problem.specs.Nodes.{IsWellFormed};
ghost use Rattle.problem.specs.Problems.{Problem};
ghost use Rattle.graph_rules.specs.Valid.{valid};
ghost use Rattle.lock_laws.specs.Forms.{IsFormedProblem};
ghost use Rattle.written_again.specs.Again.{AreApart, AreAsked};

use lock_laws::writable_laws;
use lockfile::again_laws;

/// A file that is put stands at its path, and changes no other file; where it is not in a folder,
/// the names in that folder stay as they are.
pub fn put_laws()
    ensures there { (files : Files) (path bytes : List ℕ)
        → get (insert files path bytes) path ≡ Some bytes }
    ensures others { (files : Files) (path bytes other : List ℕ) → other ≢ path
        → get (insert files path bytes) other ≡ get files other }
    ensures listed { (files : Files) (path bytes folder : List ℕ)
        → name_below folder path ≡ None
        → names_in (insert files path bytes) folder ≡ names_in files folder }
{}

/// Each text of the value that is written for a valid graph, as `write_lock` gives one, is read as
/// just that graph, where no two of its nodes have one hash, the texts of its problem have their
/// forms, and those of its roots are UTF-8, as all that were read; and its roots are those that are
/// asked for, one of each and in order, each with the hash of its node.
pub fn lock_file_laws()
    ensures read { (problem : Problem) (graph : Content) → IsFormedProblem problem
        → AreRecords problem.database → IsWellFormed graph → valid problem graph ≡ true
        → All (λ spec. IsUtf8 (spec_text spec)) problem.roots → AreApart graph
        → (text : List ℕ) → IsJson text (lock_data graph problem.database problem.roots)
        → IsLock text (lock_of graph problem.roots) }
    ensures asked { (problem : Problem) (graph : Content) → valid problem graph ≡ true
        → AreAsked (lock_of graph problem.roots) problem.roots }
{
    writable_laws();
    again_laws();
}
