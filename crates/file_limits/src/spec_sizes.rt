//! What holds of all texts of specs. The body is empty: what is proved is the contract.

ghost use Rattle.file_limits.specs.SpecSizes.{TextsBearValues};

/// Whatever kind of text it is, the variants of the specs that it spells have together at most half
/// as many values as it has bytes.
pub fn spec_count_laws()
    ensures bear { TextsBearValues }
{}
