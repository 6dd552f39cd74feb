//! What holds of the verdict on any lock file.

ghost use Rattle.std.specs.Prelude.{◌≡◌, ℕ, List, Result};
ghost use Rattle.outside_desk.specs.Files.{Files};
ghost use Rattle.problem.specs.Problems.{Problem};
ghost use Rattle.run_input.specs.Refusal.{Refusal};
ghost use Rattle.graph_core.specs.Graphs.{Content};
ghost use Rattle.run_task.specs.Verdicts.{GraphAt, Judges};

use lockfile::lock_laws;

/// Of a lock file one thing is said at most, or one refusal is due at most; and it has one graph at
/// most.
pub fn verdict_laws()
    ensures one { (files : Files) (path : List ℕ) (problem : Problem)
        (a b : Result (List ℕ) Refusal)
        → Judges files path problem a → Judges files path problem b → a ≡ b }
    ensures one_graph { (files : Files) (path : List ℕ) (problem : Problem)
        (a b : Result Content Refusal)
        → GraphAt files path problem a → GraphAt files path problem b → a ≡ b }
{
    lock_laws();
}
