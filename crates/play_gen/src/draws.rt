// Numbers drawn one after the other.
ghost use Rattle.std.specs.Prelude.{◌≡◌, ◌<◌, ◌^◌};
ghost use Rattle.play_gen.specs.Draws.{initial_state, next_state, draw};

use std::marker::Model;

/// A sequence of numbers that depends on the number of the input: a linear congruential generator modulo 2^31, of which
/// a draw takes the upper bits.
#[derive(Drop)]
pub struct Draws {
    state: u64,
}

impl Model for Draws {
    ghost use Rattle.std.specs.Prelude.{ℕ, ◌<◌, ◌^◌};

    ghost Value = { ℕ };

    ghost view = { λ d. d.state };

    ghost invariant = { λ d. d.state < 2 ^ 31 };
}

impl Draws {
    /// Returns the sequence for `number`.
    pub fn new(number: u32) -> Self
        ensures { result ≡ initial_state number }
    {
        Draws {
            state: number as u64 % 0x8000_0000,
        }
    }

    /// Draws the next number, below `end`.
    pub fn draw(&mut self, end: u32) -> u32
        requires { 0 < end }
        ensures value { result ≡ draw self.old end }
        ensures below { result < end }
        ensures next { self.new ≡ next_state self.old }
    {
        self.state = (1103515245 * self.state + 12345) % 0x8000_0000;
        (self.state / 65536 % end as u64) as u32
    }
}
