//! What holds of sums of costs. The body is empty: what is proved is the contract.
ghost use Rattle.ranked_costs.specs.Small.{LimitsKeepSmall};

/// Within the limits, the weights of each of the 31 lists of terms add up to less than 2^63.
pub fn limit_laws()
    ensures small { LimitsKeepSmall }
{}
