//! What holds of all answers. What is proved is the contract.
ghost use Rattle.std.specs.Prelude.{◌≡◌, ℕ, List, Option, Some};
ghost use Rattle.outside_desk.specs.Files.{Files};
ghost use Rattle.run_output.specs.Exits.{Spoken};
ghost use Rattle.run_output.specs.Senses.{meaning};
ghost use Rattle.run_output.specs.Status.{Status};
ghost use Rattle.run_output.specs.Words.{Command, command_of};
ghost use Rattle.run_output.specs.Work.TheVariants as works;
ghost use Rattle.concretizer.specs.Headline.{HasOutdone, HasShown, IsDone, IsRefused, IsUndecided, IsUnsatisfiable, Settles};
ghost use Rattle.headline_laws.specs.Sentences.{AreUnmetAlone, HasGraph, HasNone, IsBeaten, IsCheapestAt, IsLeastAlone, IsSettled, IsSpent, IsTurnedAway, LeavesCheapest, Reads};

/// What the answers of the commands say.
///
/// Done by `concretize`: of the problem that was read, LOCK holds the lock file of a valid graph,
/// and no valid graph costs less. Done by `check` or `fresh`, whoever made the files: the lock file
/// at LOCK is one of just the roots that are asked for, its graph is valid, and no valid graph
/// costs less; Stale: it is valid, and another valid graph costs less. Done by `refute`, or
/// Unsatisfiable by `concretize`: no graph is valid. Done by `explain`: some graph is valid;
/// Unsatisfiable: none is for the demands that were said alone; by `reasons` besides: for each of
/// them some graph is valid for all others.
/// Undecided by `concretize`: the budget was spent. A refusal leaves every file as it was, and says
/// one line. Input that nothing refuses is answered, or memory ran out.
pub fn headline_laws()
    ensures concretized { (files : Files) (words : List (List ℕ)) (after : Option Files)
        (out err : Spoken) (command : Command)
        → command_of words ≡ Some command → command.work ≡ works.Concretize
        → IsDone meaning files words after out err
        → Reads files command (LeavesCheapest after command.lock) }
    ensures none { (files : Files) (words : List (List ℕ)) (after : Option Files)
        (out err : Spoken) (command : Command)
        → command_of words ≡ Some command → command.work ≡ works.Concretize
        → IsUnsatisfiable meaning files words after out err
        → Reads files command HasNone }
    ensures checked { (files : Files) (words : List (List ℕ)) (command : Command)
        → command_of words ≡ Some command → command.work ≡ works.Check
        → HasShown files words
        → Reads files command (IsCheapestAt files command.lock) }
    ensures fresh { (files : Files) (words : List (List ℕ)) (command : Command)
        → command_of words ≡ Some command → command.work ≡ works.Fresh
        → HasShown files words
        → Reads files command (IsCheapestAt files command.lock) }
    ensures stale { (files : Files) (words : List (List ℕ)) (command : Command)
        → command_of words ≡ Some command → command.work ≡ works.Fresh
        → HasOutdone files words
        → Reads files command (IsBeaten files command.lock) }
    ensures refuted { (files : Files) (words : List (List ℕ)) (command : Command)
        → command_of words ≡ Some command → command.work ≡ works.Refute
        → HasShown files words
        → Reads files command HasNone }
    ensures satisfiable { (files : Files) (words : List (List ℕ)) (after : Option Files)
        (out err : Spoken) (command : Command)
        → command_of words ≡ Some command → command.work ≡ works.Explain
        → IsDone meaning files words after out err
        → Reads files command HasGraph }
    ensures explained { (files : Files) (words : List (List ℕ)) (after : Option Files)
        (out err : Spoken) (command : Command)
        → command_of words ≡ Some command → command.work ≡ works.Explain
        → IsUnsatisfiable meaning files words after out err
        → Reads files command (AreUnmetAlone out) }
    ensures reasons { (files : Files) (words : List (List ℕ)) (after : Option Files)
        (out err : Spoken) (command : Command)
        → command_of words ≡ Some command → command.work ≡ works.Reasons
        → IsUnsatisfiable meaning files words after out err
        → Reads files command (IsLeastAlone out) }
    ensures undecided { (files : Files) (words : List (List ℕ)) (after : Option Files)
        (out err : Spoken) (command : Command)
        → command_of words ≡ Some command → command.work ≡ works.Concretize
        → IsUndecided meaning files words after out err
        → Reads files command IsSpent }
    ensures refused { (files : Files) (words : List (List ℕ)) (answer : Status)
        (after : Option Files) (out err : Spoken)
        → IsRefused meaning files words answer after out err → IsTurnedAway files after out err }
    ensures settled { (status : Status) → Settles status → IsSettled status }
{}
