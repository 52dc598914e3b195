//! The random draws of a seed, exactly the same on every machine.
//!
//! Stands on std alone. The generator is the multiplicative congruential one of Park and Miller (1988) modulo 2^31 - 1,
//! with the multiplier 48271 of Park, Miller and Stockmeyer (1993). A `Draws` is seen as its latest draw, and the contract
//! of `draw` is an equation with the definition.
#![tactic(auto)]

ghost use Rattle.std.specs.Prelude.{◌≡◌, ◌<◌};
ghost use Rattle.draws.specs.Draws.{start, next_draw, TakesNext};

use std::marker::Model;

/// The draws of a seed, one behind the other, without end. Their choice is fixed by the seed; they are no source of secrets.
#[derive(Drop)]
pub struct Draws {
    latest: u64,
}

impl Model for Draws {
    ghost use Rattle.std.specs.Prelude.{ℕ, ◌<◌};

    ghost Value = { ℕ };

    ghost view = { λ d. d.latest };

    ghost invariant = { λ d. d.latest < 2147483647 };
}

impl Draws {
    /// The draws of a seed, none of which is taken yet.
    pub fn of_seed(seed: u64) -> Draws
        ensures { result ≡ start seed }
    {
        Draws {
            latest: seed % 2_147_483_646 + 1,
        }
    }

    /// Takes the next draw: 0 to 2147483646.
    pub fn draw(&mut self) -> u64
        ensures value { result ≡ next_draw self.old }
        ensures taken { self.new ≡ result }
        ensures within { result < 2147483647 }
    {
        let drawn = 48_271 * self.latest % 2_147_483_647;
        self.latest = drawn;
        drawn
    }
}

impl Iterator for Draws {
    type Item = u64;

    ghost next_gives = { TakesNext };

    fn next(&mut self) -> Option<u64> {
        Some(self.draw())
    }
}

#[cfg(test)]
mod tests;
