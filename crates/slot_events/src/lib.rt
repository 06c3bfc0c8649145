// What happens in a slot (document 01, "Judging a slot"): bytes arrive, there is activity at its boundary, this node sends.
//
// Entries: `arrived` on a status and bytes, `boundary` and `sent` on a status. Each takes whatever comes and gives an answer and
// a status.
#![tactic(auto, unfolding(refusal::specs::Refusal::first))]

ghost use Rattle.std.specs.Prelude.{◌≡◌, Err};
ghost use Rattle.slot_events.specs.Effect.{arrival, boundary_activity, own_sending, of_refused, of_accepted, reason_in, joined};
ghost use Rattle.slot_events.specs.Events.{refusal_number, EventSays};

use checksum::ChecksumPair;
use header::Header;
use refusal::{Answered, Refusal};
use slot::{Reason, Status};

// Refusal 23: the status that was handed in is not sound.
#[derive(Clone, Copy)]
pub struct NotSound;

impl Refusal for NotSound {
    ghost number_of = { refusal_number };

    fn number(self) -> u8 {
        23
    }
}

// What an event answers, and the status beside it. (Each event asks for soundness by itself: one function that took the event as a closure would
// have the closure's clauses in its contract.)
pub type Judged = Answered<(), NotSound, Status>;

// Bytes arrived, any number of them.
pub fn arrived(status: Status, bytes: &[u8]) -> Judged
    ensures { EventSays status (arrival bytes.now) result }
{
    if !slot::is_sound(status) {
        return not_sound(status);
    }
    let reading = frame::read_on(status.channel, bytes);
    let Ok(header) = reading else {
        return Answered::accepted((), with_refused(status, frame::checksums_told(reading)));
    };
    let miss = slot::first_miss(status, header);
    let kept = miss.is_none().then_some(header);
    Answered::accepted((), with_accepted(status, miss.map(Reason::Missed), kept))
}

// Activity at a boundary of the slot.
pub fn boundary(status: Status) -> Judged
    ensures { EventSays status boundary_activity result }
{
    if !slot::is_sound(status) {
        return not_sound(status);
    }
    Answered::accepted(
        (),
        Status {
            boundary_violation: true,
            ..status
        },
    )
}

// This node sent in the slot.
pub fn sent(status: Status) -> Judged
    ensures { EventSays status own_sending result }
{
    if !slot::is_sound(status) {
        return not_sound(status);
    }
    Answered::accepted(
        (),
        Status {
            own_sending: true,
            conflict: status.has_arrival() | status.conflict,
            ..status
        },
    )
}

// Refusal 23, and the status that was handed in.
fn not_sound(handed_in: Status) -> Judged
    ensures { result ≡ record { answer = Err (record {}); state = handed_in } }
{
    Answered::refused(NotSound, handed_in)
}

// The status after an arrival that is refused, by the two checksums that reading tells: those of the first such are kept. It gives no reason
// and no frame to keep.
fn with_refused(status: Status, told: ChecksumPair) -> Status
    ensures { result ≡ joined status (of_refused told) }
{
    let checksums = if status.syntax_error {
        status.checksums
    } else {
        told
    };
    Status {
        syntax_error: true,
        checksums,
        ..with_accepted(status, None, None)
    }
}

// The status after an arrival, by the reason and the frame to keep that it gives.
fn with_accepted(status: Status, reason: Option<Reason>, kept: Option<Header>) -> Status
    ensures { result ≡ joined status (of_accepted reason kept) }
{
    let given = reason_in(status, reason, kept);
    Status {
        content_error: given.is_some() | status.content_error,
        conflict: status.own_sending | status.conflict,
        valid: kept.is_some() | status.valid,
        reason: status.reason.or(given),
        kept: status.kept.or(kept),
        ..status
    }
}

// The reason that an arrival gives in this slot: that of the test that it misses, or (f) where it passes all and another had passed before
// it. That one had, "valid" tells, as it stands before this arrival.
fn reason_in(status: Status, reason: Option<Reason>, kept: Option<Header>) -> Option<Reason>
    ensures { result ≡ reason_in status (of_accepted reason kept) }
{
    if kept.is_some() & status.valid {
        return Some(Reason::SecondGoodFrame);
    }
    reason
}
