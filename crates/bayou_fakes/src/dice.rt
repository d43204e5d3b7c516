//! Numbers that look as if they were thrown.
ghost use Rattle.std.specs.Prelude.{◌<◌};

/// A linear congruential generator with Knuth's constants, from a seed.
#[derive(Clone, Copy)]
pub struct Dice {
    pub state: u64,
}

impl Dice {
    /// A number below this one, which isn't 0.
    pub fn below(&mut self, bound: u32) -> u32
        ensures { 0 < bound → result < bound }
    {
        self.state = self
            .state
            .wrapping_mul(6_364_136_223_846_793_005)
            .wrapping_add(1_442_695_040_888_963_407);
        (self.state >> 40) as u32 % bound.max(1)
    }

    /// Once in so many throws.
    pub fn chance(&mut self, one_in: u32) -> bool {
        self.below(one_in) == 0
    }
}
