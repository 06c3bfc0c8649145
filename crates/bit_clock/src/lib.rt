// Voting and the bit clock (document 02, C-13; 002, sections 3.2.2 and 3.2.3): which samples strobe a bit, and which bit that is.
//
// For the crates above: `BitClock`, with `fresh` and `none`, `is_sound`, and, for each sample, `votes`, `vote`, `strobes` and `after`. Each
// takes whatever comes.
#![tactic(auto)]

ghost use Rattle.std.specs.Prelude.{◌≡◌};
ghost use Rattle.bit_clock.specs.Clock.{votes, vote, falls, strobes, after as clock_after, at_first, fresh_clock, no_clock, sound_clock};

// What is remembered from one sample to the next.
#[derive(Clone, Copy)]
pub struct BitClock {
    // The last four samples. Those that have not come are low. (No array: the rule names each, and an index would say less.)
    pub oldest: bool,
    pub older: bool,
    pub newer: bool,
    pub newest: bool,
    // How many of them have come.
    pub seen: u8,
    // The last voted value.
    pub voted: bool,
    // Where the clock stands at the next sample: 1 to 8. (Wide, since a struct of eight single bytes is slow to hand on.)
    pub counter: u32,
    // Whether the next falling edge sets the counter anew.
    pub realigns: bool,
}

// Five samples are voted on: these and the new one.
const REMEMBERED: u8 = 4;

// The counter begins again behind this.
const SAMPLES_PER_BIT: u32 = 8;

// A falling edge counts as 1, and the sample behind it as this.
const BEHIND_EDGE: u32 = 2;

// Where a bit is strobed.
const STROBE: u32 = 5;

impl BitClock {
    // Before the first sample.
    pub fn fresh() -> BitClock
        ensures { result ≡ fresh_clock }
    {
        at_first(1)
    }

    // All zeros, all flags clear: what stands beside a refusal.
    pub fn none() -> BitClock
        ensures { result ≡ no_clock }
    {
        at_first(0)
    }

    pub fn is_sound(self) -> bool
        ensures { result ≡ sound_clock self }
    {
        let in_range = (self.seen <= REMEMBERED) & (1..=SAMPLES_PER_BIT).contains(&self.counter);
        let not_come = !self.oldest
            & (((2 < self.seen) | !self.older)
                & (((1 < self.seen) | !self.newer) & ((0 < self.seen) | !self.newest)));
        let nothing_voted = !self.voted & ((self.counter == 1) & !self.realigns);
        in_range & (self.votes() | (not_come & nothing_voted))
    }

    // Whether the next sample has a voted value.
    pub fn votes(self) -> bool
        ensures { result ≡ votes self }
    {
        self.seen == REMEMBERED
    }

    // The voted value of the next sample: the majority of the last five.
    pub fn vote(self, high: bool) -> bool
        ensures { result ≡ vote self high }
    {
        2 < u8::from(self.oldest)
            + u8::from(self.older)
            + u8::from(self.newer)
            + u8::from(self.newest)
            + u8::from(high)
    }

    // Whether the next sample, with this voted value, is a falling edge that sets the counter anew.
    fn falls(self, v: bool) -> bool
        ensures { result ≡ falls self v }
    {
        self.votes() & (!v & (self.voted & self.realigns))
    }

    // Whether a bit, the voted value, is strobed in the next sample.
    pub fn strobes(self, v: bool) -> bool
        ensures { result ≡ strobes self v }
    {
        self.votes() & (!self.falls(v) & (self.counter == STROBE))
    }

    // What is remembered after a sample with this voted value. `in_byte` tells that a bit strobed in it is one of a byte's eight.
    pub fn after(self, in_byte: bool, high: bool, v: bool) -> BitClock
        ensures { result ≡ clock_after self in_byte high v }
    {
        let votes = self.votes();
        let falls = self.falls(v);
        let strobes = self.strobes(v);
        BitClock {
            oldest: self.older,
            older: self.newer,
            newer: self.newest,
            newest: high,
            seen: self.seen.saturating_add(1).min(REMEMBERED),
            voted: if votes { v } else { self.voted },
            counter: if falls {
                BEHIND_EDGE
            } else if votes {
                self.counter % SAMPLES_PER_BIT + 1
            } else {
                self.counter
            },
            realigns: !falls & ((strobes & (v & !in_byte)) | self.realigns),
        }
    }
}

// No sample has come, and nothing is voted.
fn at_first(counter: u32) -> BitClock
    ensures { result ≡ at_first counter }
{
    BitClock {
        oldest: false,
        older: false,
        newer: false,
        newest: false,
        seen: 0,
        voted: false,
        counter,
        realigns: false,
    }
}
