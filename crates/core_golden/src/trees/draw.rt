//! Numbers that are drawn, as those of a storm.

ghost use Rattle.std.specs.Prelude.{◌<◌};

/// What draws numbers, one after another from a seed.
#[derive(Drop)]
pub struct Draw {
    /// Where it stands; the seed at first.
    pub state: u64,
}

impl Draw {
    /// The next number, below a bound.
    pub fn below(&mut self, bound: u32) -> u32
        requires { 0 < bound }
        ensures { result < bound }
    {
        self.state = self
            .state
            .wrapping_mul(6_364_136_223_846_793_005)
            .wrapping_add(1_442_695_040_888_963_407);
        let drawn = self.state / (1 << 33) % u64::from(bound);
        drawn as u32
    }
}
