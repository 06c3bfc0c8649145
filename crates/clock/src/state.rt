// What a clock knows: its settings, the measurements in use, and where in the cycles it is.
ghost use Rattle.std.specs.Prelude.{◌≡◌};
ghost use Rattle.clock.specs.State.{fresh as state_fresh, no_clock, current_cycle, list_of, with_list};

use base_types::{Cycle, SignedMicrotick};
use settings::Settings;
use sync_list::SyncList;

#[derive(Clone, Copy)]
pub struct Clock {
    pub settings: Settings,
    // The measurements of an even cycle, and of an odd one.
    pub even: SyncList,
    pub odd: SyncList,
    pub opened: Option<Cycle>,
    pub last_closed: Option<Cycle>,
    // The stored rate.
    pub rate: SignedMicrotick,
}

impl Clock {
    // The state of a clock that is loaded: nothing measured, no cycle open, none closed, stored rate 0.
    pub(crate) fn fresh(settings: Settings) -> Clock
        ensures { result ≡ state_fresh settings }
    {
        Clock {
            settings,
            even: SyncList::empty(),
            odd: SyncList::empty(),
            opened: None,
            last_closed: None,
            rate: SignedMicrotick(0),
        }
    }

    // All zeros: what comes back beside a refused load. It is not sound.
    pub fn none() -> Clock
        ensures { result ≡ no_clock }
    {
        Clock::fresh(Settings::none())
    }

    // The open cycle; 0 where none is open. (A cycle and no Option: each condition of an order is defined by itself, DECISIONS 91.)
    pub fn current_cycle(&self) -> Cycle
        ensures { result ≡ current_cycle self.now }
    {
        self.opened.unwrap_or(Cycle(0))
    }

    // The list that takes the measurements of a cycle.
    pub fn list_of(&self, cycle: Cycle) -> SyncList
        ensures { result ≡ list_of cycle self.now }
    {
        if cycle.is_odd() { self.odd } else { self.even }
    }

    // The state with another list of a cycle's measurements.
    pub fn with_list(self, cycle: Cycle, list: SyncList) -> Clock
        ensures { result ≡ with_list cycle list self }
    {
        if cycle.is_odd() {
            Clock { odd: list, ..self }
        } else {
            Clock { even: list, ..self }
        }
    }
}
