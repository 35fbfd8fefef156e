//! The numbers that a sample is drawn with.

ghost use Rattle.std.specs.Prelude.{◌≡◌, ◌<◌};
ghost use Rattle.bb_sample.specs.Draws.{generator_step, drawn};

use std::marker::Model;

/// A generator of numbers (a linear congruential one), by its state.
#[derive(Drop)]
pub(crate) struct Draws {
    state: u32,
}

impl Model for Draws {
    ghost use Rattle.std.specs.Prelude.{ℕ};

    ghost Value = { ℕ };

    ghost view = { λ draws. draws.state };
}

impl Draws {
    /// The generator that begins at a number.
    pub(crate) fn new(number: u32) -> Draws
        ensures { result ≡ number }
    {
        Draws { state: number }
    }

    /// The next draw below a bound.
    pub(crate) fn below(&mut self, bound: u32) -> u32
        requires { 0 < bound }
        ensures drawn { result ≡ drawn self.new bound }
        ensures state { self.new ≡ generator_step self.old }
        ensures within { result < bound }
    {
        self.state = generator_step(self.state);
        self.state / 256 % bound
    }
}

/// The state after another.
fn generator_step(state: u32) -> u32
    ensures { result ≡ generator_step state }
{
    ((1_103_515_245 * state as u64 + 12_345) % 4_294_967_296) as u32
}
