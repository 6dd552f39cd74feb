//! What holds of answers. The body is empty: what is proved is the contract.

ghost use Rattle.std.specs.Prelude.{◌<◌, ◌-◌, ◌^◌, ℕ, List, Option};
ghost use Rattle.outside_desk.specs.Files.{Files};
ghost use Rattle.run_task.specs.declared.task.Task.{Task};
ghost use Rattle.run_output.specs.Answers.{HasSpent};
ghost use Rattle.run_output.specs.Budgets.{budget_of};
ghost use Rattle.run_output.specs.Senses.{meaning};

/// A task is left undecided only under a budget below 2^64 - 1: never under that of the standard
/// settings.
#[tactic(auto, using(crate::proofs::Spent::spent_below))]
pub fn budget_laws()
    ensures { (lock cert : List ℕ) (task : Task) (before after : Option Files)
        (said more : Option (List ℕ))
        → HasSpent meaning lock cert task before after said more → budget_of task < 2 ^ 64 - 1 }
{}
