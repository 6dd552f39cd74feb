//! What holds of weights of values. The body is empty: what is proved is the contract.
ghost use Rattle.file_limits.specs.WeightBounds.{TextsBearWeight, KeysShareWeight};

/// A text has at least as many bytes as its value weighs, and what stands at different keys of an
/// object weighs together no more than its members.
pub fn count_laws()
    ensures texts { TextsBearWeight }
    ensures keys { KeysShareWeight }
{}
