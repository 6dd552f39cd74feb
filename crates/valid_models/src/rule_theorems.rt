//! What holds of the formulas of each problem. The body is empty: what is proved is the contract.
ghost use Rattle.valid_models.specs.Joined.{RulesAreRight};

/// The formulas of a problem are right, where paths are told to its targets.
pub fn right_rules()
    ensures { RulesAreRight }
{}
