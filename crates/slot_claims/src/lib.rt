// What follows from the slot's rules. `specs/` states the claims, `proofs/` proves them, and this file has their witnesses:
// short functions over the entries, proved from their contracts alone.
#![tactic(auto)]

ghost use Rattle.std.specs.Prelude.{◌≡◌, true, false, ◌↔◌};
ghost use Rattle.slot_events.specs.Effect.{arrival, boundary_activity, own_sending};
ghost use Rattle.slot_events.specs.Events.{left_by};
ghost use Rattle.slot_claims.specs.Sound.{SoundStatus};
ghost use Rattle.slot_claims.specs.Witnesses.{OpenedWell, JudgedWell, event_of, events_of, Played};

use base_types::{Cycle, Slot};
use settings::Settings;
use slot::{Opened, Status};
use slot_events::Judged;

// Whether a status is sound: exactly where it meets 01's sentence.
#[tactic(auto, using(crate::proofs::Sound::sound_exactly))]
pub fn is_sound_in_words(status: Status) -> bool
    ensures { (result ≡ true) ↔ SoundStatus status }
{
    slot::is_sound(status)
}

// Whether the all-zero status is sound. It is not.
#[tactic(auto, using(crate::proofs::SoundCalls::no_status_unsound))]
pub fn none_is_sound() -> bool
    ensures { result ≡ false }
{
    slot::is_sound(Status::none())
}

// The answer of opening, with the field that it tells, and the status beside it.
#[tactic(auto, using(crate::proofs::Witnesses::opened_well))]
pub fn opened(settings: Settings, channel: u8, slot: Slot, cycle: Cycle) -> Opened
    ensures { OpenedWell settings channel slot cycle result }
{
    slot::open_slot(settings, channel, slot, cycle)
}

// The answer of each event, and the status beside it.
pub fn judged_arrival(status: Status, bytes: &[u8]) -> Judged
    ensures { JudgedWell status (arrival bytes.now) result }
{
    slot_events::arrived(status, bytes)
}

pub fn judged_boundary(status: Status) -> Judged
    ensures { JudgedWell status boundary_activity result }
{
    slot_events::boundary(status)
}

pub fn judged_sending(status: Status) -> Judged
    ensures { JudgedWell status own_sending result }
{
    slot_events::sent(status)
}

// What happens in a slot.
#[derive(Clone, Copy)]
pub enum SlotEvent<'a> {
    Boundary,
    Sent,
    Arrived(&'a [u8]),
}

// The status after one event.
fn happened(status: Status, event: SlotEvent) -> Status
    ensures { result ≡ left_by status (event_of event.entry) }
{
    let judged = match event {
        SlotEvent::Boundary => slot_events::boundary(status),
        SlotEvent::Sent => slot_events::sent(status),
        SlotEvent::Arrived(bytes) => slot_events::arrived(status, bytes),
    };
    judged.state
}

// Opens a slot and lets the events happen, one after the other. The status at the end.
#[tactic(auto, using(crate::proofs::Witnesses::was_played))]
pub fn played(
    settings: Settings,
    channel: u8,
    slot: Slot,
    cycle: Cycle,
    events: &[SlotEvent],
) -> Status
    ensures { Played settings channel slot cycle (events_of events.now) result }
{
    let mut status = slot::open_slot(settings, channel, slot, cycle).state;
    for event in events {
        status = happened(status, *event);
    }
    status
}
