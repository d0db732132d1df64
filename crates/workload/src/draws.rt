//! The numbers that the rounds draw.

ghost use Rattle.std.specs.Prelude.{◌≡◌, ◌/◌, ◌<◌, ◌^◌};
ghost use Rattle.workload.specs.Workload.{next_state};

use std::marker::Model;

// The factor and the addend of the generator.
const FACTOR: u64 = 6_364_136_223_846_793_005;

const ADDEND: u64 = 1_442_695_040_888_963_407;

/// A linear congruential generator of 64 bits. Contracts see its state.
#[derive(Drop)]
pub(crate) struct Draws {
    state: u64,
}

impl Model for Draws {
    ghost use Rattle.std.specs.Prelude.{ℕ};

    ghost Value = { ℕ };

    ghost view = { λ draws. draws.state };
}

impl Draws {
    pub(crate) fn new(seed: u32) -> Draws
        ensures { result ≡ seed }
    {
        Draws {
            state: u64::from(seed),
        }
    }

    /// The next draw: the upper 31 bits of the next state.
    #[tactic(auto, unfolding(crate::specs::Workload::next_state))]
    pub(crate) fn next(&mut self) -> u32
        ensures state { self.new ≡ next_state self.old }
        ensures drawn { result ≡ self.new / 2 ^ 33 }
    {
        self.state = self.state.wrapping_mul(FACTOR).wrapping_add(ADDEND);
        (self.state >> 33) as u32
    }
}
