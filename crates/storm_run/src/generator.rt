//! The generator of numbers.

ghost use Rattle.std.specs.Prelude.{◌≡◌, ◌<◌};
ghost use Rattle.storm_run.specs.Generators.{next, number, drawn};

use schedule_unit::{AppNo, MachineNo};
use std::marker::Model;

// How many applications and machines there are to draw from.
const APPS: u64 = 3;

const MACHINES: u64 = 8;

// A linear congruential generator modulo 2^64. Seen as its state.
#[derive(Drop)]
pub(crate) struct Generator {
    state: u64,
}

impl Model for Generator {
    ghost use Rattle.std.specs.Prelude.{ℕ};

    ghost Value = { ℕ };

    ghost view = { λ g. g.state };
}

impl Generator {
    pub(crate) fn from_seed(seed: u64) -> Generator
        ensures { result ≡ seed }
    {
        Generator { state: seed }
    }

    // Draws a number, by the upper bits of the next state.
    fn draw_number(&mut self) -> u64
        ensures number { result ≡ number self.old }
        ensures state { self.new ≡ next self.old }
    {
        self.state = self
            .state
            .wrapping_mul(6_364_136_223_846_793_005)
            .wrapping_add(1_442_695_040_888_963_407);
        self.state / (1 << 33)
    }

    // Draws a number below a bound.
    pub(crate) fn draw(&mut self, bound: u64) -> u64
        requires { 0 < bound }
        ensures number { result ≡ drawn bound self.old }
        ensures state { self.new ≡ next self.old }
        ensures below { result < bound }
    {
        self.draw_number() % bound
    }

    // Draws an application.
    pub(crate) fn draw_app(&mut self) -> AppNo
        ensures number { result.0 ≡ drawn 3 self.old }
        ensures state { self.new ≡ next self.old }
        ensures below { result.0 < 3 }
    {
        AppNo(self.draw(APPS) as u32)
    }

    // Draws a machine.
    pub(crate) fn draw_machine(&mut self) -> MachineNo
        ensures number { result.0 ≡ drawn 8 self.old }
        ensures state { self.new ≡ next self.old }
        ensures below { result.0 < 8 }
    {
        MachineNo(self.draw(MACHINES) as u32)
    }
}
