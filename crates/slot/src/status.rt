// What is known of a slot: how it was opened, and what happened in it.
ghost use Rattle.std.specs.Prelude.{◌≡◌};
ghost use Rattle.slot.specs.Judging.{fresh as judging_fresh, no_status, has_arrival};

use base_types::{Channel, Cycle, Slot};
use checksum::ChecksumPair;
use header::Header;
use settings::Settings;

// The test that a frame misses, of 01's (a) to (e).
#[derive(Clone, Copy)]
pub enum Miss {
    // (a)
    OtherId,
    // (b)
    OtherCycle,
    // (c)
    OtherWords,
    // (d)
    SyncOrStartup,
    // (e)
    NullFrame,
}

// A content reason.
#[derive(Clone, Copy)]
pub enum Reason {
    // (a) to (e).
    Missed(Miss),
    // (f), which no test gives: a frame passed all tests after another had passed (02, C-15).
    SecondGoodFrame,
}

#[derive(Clone, Copy)]
pub struct Status {
    pub settings: Settings,
    pub channel: Channel,
    pub slot: Slot,
    pub cycle: Cycle,
    pub syntax_error: bool,
    pub content_error: bool,
    pub boundary_violation: bool,
    pub conflict: bool,
    pub valid: bool,
    // Own sending is recorded.
    pub own_sending: bool,
    // The first content reason.
    pub reason: Option<Reason>,
    // The header of the first frame that missed no test.
    pub kept: Option<Header>,
    // Found and worked out, as the first syntax error told them; 0 for both where none did (02, C-18).
    pub checksums: ChecksumPair,
}

impl Status {
    // The status of a slot in which nothing has happened.
    pub fn fresh(settings: Settings, channel: Channel, slot: Slot, cycle: Cycle) -> Status
        ensures { result ≡ judging_fresh (record { settings = settings; channel = channel; slot = slot; cycle = cycle }) }
    {
        Status {
            settings,
            channel,
            slot,
            cycle,
            syntax_error: false,
            content_error: false,
            boundary_violation: false,
            conflict: false,
            valid: false,
            own_sending: false,
            reason: None,
            kept: None,
            checksums: ChecksumPair::NONE,
        }
    }

    // All zeros, all flags clear: what stands beside a refused opening. It is not sound.
    pub fn none() -> Status
        ensures { result ≡ no_status }
    {
        Status::fresh(Settings::none(), Channel::A, Slot(0), Cycle(0))
    }

    // Whether anything has arrived: each arrival sets one of these.
    pub fn has_arrival(self) -> bool
        ensures { result ≡ has_arrival self }
    {
        self.syntax_error | (self.content_error | self.valid)
    }
}
