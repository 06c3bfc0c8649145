// A cycle.
ghost use Rattle.std.specs.Prelude.{◌≡◌};
ghost use Rattle.base_types.specs.Cycle.{highest_cycle, cycle_too_high, is_odd};

#[derive(Clone, Copy, PartialEq, Eq)]
pub struct Cycle(pub u8);

impl Cycle {
    pub const HIGHEST: u8 = 63;

    // The constant is its rule's (DECISIONS 108).
    fn constants()
        ensures { Cycle.HIGHEST ≡ highest_cycle }
    {}

    // Refusal 11.
    pub fn is_too_high(self) -> bool
        ensures { result ≡ cycle_too_high self.0 }
    {
        Cycle::HIGHEST < self.0
    }

    // Whether it is odd. Any other is even.
    pub fn is_odd(self) -> bool
        ensures { result ≡ is_odd self }
    {
        self.0 % 2 == 1
    }
}
