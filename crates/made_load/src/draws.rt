//! Numbers drawn one after the other.
ghost use Rattle.std.specs.Prelude.{◌≡◌, ◌<◌};
ghost use Rattle.made_load.specs.Draws.{next_state, drawn};

const MULTIPLIER: u64 = 6_364_136_223_846_793_005;

const INCREMENT: u64 = 1_442_695_040_888_963_407;

/// A generator of numbers by its state.
#[derive(Drop)]
pub(crate) struct Draws {
    pub(crate) state: u64,
}

impl Draws {
    /// A number below `bound`.
    #[tactic(auto, using(crate::proofs::Steps::stepped), unfolding(crate::specs::Draws::next_state, crate::specs::Draws::drawn))]
    pub(crate) fn draw(&mut self, bound: u64) -> u64
        requires { 0 < bound }
        ensures drawn { result ≡ drawn bound self.old.state }
        ensures state { self.new.state ≡ next_state self.old.state }
        ensures below { result < bound }
    {
        self.state = self.state.wrapping_mul(MULTIPLIER).wrapping_add(INCREMENT);
        (self.state >> 33) % bound
    }
}
