//! Who is told where each half of a block is.

/// Is told before each line of a block that a half checks: the number of the half, 0 or 1, and the
/// line's place in the block, from 0. No answer depends on a gate.
pub trait Gate: Sync {
    fn arrive(&self, half: u64, place: u64);
}

/// Lets all pass.
#[derive(Clone, Copy)]
pub struct OpenGate;

impl Gate for OpenGate {
    fn arrive(&self, _half: u64, _place: u64) {}
}
