// What holds of all plans. The bodies are empty: what is proved are the contracts.
ghost use Rattle.std.specs.Prelude.{◌≡◌, ℕ, ◌≤◌, List, All, length};
ghost use Rattle.graph_core.specs.Graphs.{Text, Content};
ghost use Rattle.install_plan.specs.Schedules.{IsBuilt, IsSchedule};
ghost use Rattle.install_plan.specs.Plans.{IsPlan};

/// No schedule is shorter than a plan: none has all its nodes in fewer waves. The plan's chain shows it, since it has a
/// node to build for each wave.
pub fn plan_laws()
    ensures shortest { (g : Content) (waves : List (List Text)) (chain : List Text)
        → IsPlan g waves chain
        → (other : Text → ℕ) → IsSchedule g other
        → (last : ℕ) → ((name : Text) → IsBuilt g name → other name ≤ last)
        → length waves ≤ last }
    ensures each { (g : Content) (waves : List (List Text)) (chain : List Text)
        → IsPlan g waves chain → length chain ≡ length waves }
    ensures built { (g : Content) (waves : List (List Text)) (chain : List Text)
        → IsPlan g waves chain → All (IsBuilt g) chain }
{}
