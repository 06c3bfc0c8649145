// Microticks: times by a counter that may run over two cycles, and signed numbers, which are deviations and terms.
ghost use Rattle.std.specs.Prelude.{◌≡◌, pos, nat_abs};
ghost use Rattle.std.specs.Int.Signed.{lt_z};
ghost use Rattle.base_types.specs.Microtick.{time_limit, above_time_limit, lowest_deviation, highest_deviation, is_deviation, held};

#[derive(Clone, Copy, PartialEq, Eq)]
pub struct Microtick(pub u32);

#[derive(Clone, Copy, PartialEq, Eq)]
pub struct SignedMicrotick(pub i32);

impl Microtick {
    // The latest time that is accepted.
    pub const LIMIT: u32 = 2_560_000;

    // The constant is its rule's (DECISIONS 108).
    fn constants()
        ensures { Microtick.LIMIT ≡ time_limit }
    {}

    // Refusal 14.
    pub fn is_above_limit(self) -> bool
        ensures { result ≡ above_time_limit self.0 }
    {
        Microtick::LIMIT < self.0
    }
}

impl SignedMicrotick {
    // The most that decoding correction and delay take off a time: 255 each.
    const MOST_TAKEN_OFF: i32 = 510;

    // Both ends of the range of deviations: of time 0 and the latest action point with the most taken off, and the reverse.
    pub const LOWEST_DEVIATION: i32 = -(Microtick::LIMIT as i32) - SignedMicrotick::MOST_TAKEN_OFF;

    pub const HIGHEST_DEVIATION: i32 = Microtick::LIMIT as i32;

    // Both constants are their rules'.
    fn constants()
        ensures lowest { SignedMicrotick.LOWEST_DEVIATION ≡ lowest_deviation }
        ensures highest { SignedMicrotick.HIGHEST_DEVIATION ≡ highest_deviation }
    {}

    // Whether it lies in the range of deviations.
    pub fn is_deviation(self) -> bool
        ensures { result ≡ is_deviation self.0 }
    {
        (SignedMicrotick::LOWEST_DEVIATION..=SignedMicrotick::HIGHEST_DEVIATION).contains(&self.0)
    }

    // Below zero. (A promise to hosts; no code here asks it.)
    pub fn is_negative(self) -> bool
        ensures { result ≡ lt_z self.0 (pos 0) }
    {
        self.0 < 0
    }

    // How much it is, without its sign.
    pub fn amount(self) -> u32
        ensures { result ≡ nat_abs self.0 }
    {
        self.0.unsigned_abs()
    }

    // A wide number as this type holds it: 0 where it does not fit.
    pub fn holding(wide: i64) -> SignedMicrotick
        ensures { result.0 ≡ held wide }
    {
        SignedMicrotick(i32::try_from(wide).unwrap_or(0))
    }
}
