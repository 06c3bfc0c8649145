// That a measurement is that of the frame which a slot keeps, whatever happens in the slot behind it. `specs/` states the claim, `proofs/`
// proves it, and this file has its witness: a short function over the entries, proved from their contracts alone.
#![tactic(auto)]

ghost use Rattle.kept_frame.specs.Measured.{MeasuredLater};

use base_types::{Microtick, SignedMicrotick};
use clock::Clock;
use measuring::MeasureRefusal;
use refusal::Answered;
use slot::Status;

// Measures a status after one more arrival. Where a frame was kept before, that is the same as measuring the status that was handed in.
pub fn measured_later(
    state: Clock,
    status: Status,
    bytes: &[u8],
    observed: Microtick,
    action_point: Microtick,
) -> Answered<SignedMicrotick, MeasureRefusal, Clock>
    ensures { MeasuredLater state status bytes.now observed action_point result }
{
    let judged = slot_events::arrived(status, bytes);
    measuring::measure(state, judged.state, observed, action_point)
}
