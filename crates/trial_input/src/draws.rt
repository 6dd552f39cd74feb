//! Draws of numbers.

ghost use Rattle.std.specs.Prelude.{◌≡◌, ◌<◌};
ghost use Rattle.trial_input.specs.Draws.{next_state, drawn};

/// Draws numbers, one after the other.
#[derive(Drop)]
pub(crate) struct Draws {
    pub(crate) state: u64,
}

/// The state behind a state.
#[tactic(auto, unfolding(crate::specs::Draws::next_state))]
fn next_state(state: u64) -> u64
    ensures { result ≡ next_state state }
{
    state
        .wrapping_mul(6_364_136_223_846_793_005)
        .wrapping_add(1_442_695_040_888_963_407)
}

impl Draws {
    /// A number below `below`.
    #[tactic(auto, unfolding(crate::specs::Draws::drawn))]
    pub(crate) fn draw(&mut self, below: u64) -> u64
        requires { 0 < below }
        ensures drawn { result ≡ drawn below self.old.state }
        ensures state { self.new.state ≡ next_state self.old.state }
        ensures within { result < below }
    {
        self.state = next_state(self.state);
        (self.state >> 33) % below
    }
}
