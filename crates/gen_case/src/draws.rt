//! The numbers that a case draws.

ghost use Rattle.std.specs.Prelude.{◌≡◌, ◌<◌};
ghost use Rattle.gen_case.specs.Draws.{next_state, drawn};

// Knuth's multiplier and increment of a linear congruential generator of 64 bits.
const MULTIPLIER: u64 = 6364136223846793005;

const INCREMENT: u64 = 1442695040888963407;

/// A generator of numbers: its state.
#[derive(Drop)]
pub struct Draws {
    /// The state that the next draw begins at.
    pub state: u64,
}

impl Draws {
    /// The next draw: one of so many choices, from 0.
    #[tactic(auto, unfolding(crate::specs::Draws::next_state, crate::specs::Draws::drawn))]
    pub fn draw(&mut self, choices: u64) -> u64
        requires { 0 < choices }
        ensures state { self.new.state ≡ next_state self.old.state }
        ensures drawn { result ≡ drawn self.new.state choices }
        ensures below { result < choices }
    {
        self.state = self.state.wrapping_mul(MULTIPLIER).wrapping_add(INCREMENT);
        (self.state >> 33) % choices
    }
}
