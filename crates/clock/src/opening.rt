// A cycle opened.
ghost use Rattle.std.specs.Prelude.{◌≡◌};
ghost use Rattle.clock.specs.Opening.{number_of, keeps_even, opened_on, OpenCycleSays};

use crate::sound;
use crate::state::Clock;
use base_types::Cycle;
use refusal::{Answered, Refusal};
use sync_list::SyncList;

// Why a cycle is not opened.
#[derive(Clone, Copy)]
pub enum CycleRefusal {
    NotSound,
    CycleTooHigh,
    OpenAlready,
}

impl Refusal for CycleRefusal {
    ghost number_of = { number_of };

    fn number(self) -> u8 {
        match self {
            CycleRefusal::NotSound => 23,
            CycleRefusal::CycleTooHigh => 11,
            CycleRefusal::OpenAlready => 19,
        }
    }
}

// Opens a cycle. The tests come in 01's order; with a refusal the state is the one handed in.
#[tactic(auto, unfolding(refusal::specs::Refusal::first))]
pub fn open_cycle(clock: Clock, cycle: Cycle) -> Answered<(), CycleRefusal, Clock>
    ensures { OpenCycleSays clock cycle result }
{
    if !sound::is_sound(clock) {
        return Answered::refused(CycleRefusal::NotSound, clock);
    }
    if cycle.is_too_high() {
        return Answered::refused(CycleRefusal::CycleTooHigh, clock);
    }
    if clock.opened.is_some() {
        return Answered::refused(CycleRefusal::OpenAlready, clock);
    }
    Answered::accepted((), opened_on(clock, cycle))
}

// The state with the cycle open. The even list stays only where an odd cycle follows it.
fn opened_on(clock: Clock, cycle: Cycle) -> Clock
    ensures { result ≡ opened_on clock cycle }
{
    let even = if keeps_even(clock, cycle) {
        clock.even
    } else {
        SyncList::empty()
    };
    Clock {
        even,
        odd: SyncList::empty(),
        opened: Some(cycle),
        ..clock
    }
}

// Whether the even list stays: the cycle is odd, and the last closed one is the one before it.
fn keeps_even(clock: Clock, cycle: Cycle) -> bool
    ensures { result ≡ keeps_even clock cycle }
{
    cycle.is_odd() && clock.last_closed == Some(Cycle(cycle.0 - 1))
}
