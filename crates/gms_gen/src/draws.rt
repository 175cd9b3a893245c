//! The sequence of draws.
ghost use Rattle.std.specs.Prelude.{◌≡◌, ◌<◌, ◌^◌};
ghost use Rattle.gms_gen.specs.Generator.{first_seed, next_state, drawn_by};

use std::marker::Model;

/// A sequence of draws: a linear congruential generator, of which each number has 31 bits.
#[derive(Drop)]
pub(crate) struct Draws {
    state: u64,
}

impl Model for Draws {
    ghost use Rattle.std.specs.Prelude.{ℕ, ◌<◌, ◌^◌};

    ghost Value = { ℕ };

    ghost view = { λ draws. draws.state };

    ghost invariant = { λ draws. draws.state < 2 ^ 31 };
}

impl Draws {
    /// The sequence of a seed, before the first draw.
    pub(crate) fn new(seed: u64) -> Draws
        ensures { result ≡ first_seed seed }
    {
        Draws {
            state: seed % 2_147_483_648,
        }
    }

    /// Draws a number below another.
    pub(crate) fn draw(&mut self, below: u64) -> u64
        requires { 0 < below }
        ensures state { self.new ≡ next_state self.old }
        ensures value { result ≡ drawn_by self.new below }
        ensures below { result < below }
    {
        self.state = (1_103_515_245 * self.state + 12_345) % 2_147_483_648;
        self.state / 65_536 % below
    }
}
