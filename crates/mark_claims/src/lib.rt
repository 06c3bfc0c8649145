// What follows for the marks of settings (document 02, C-17). `specs/` states the claims, `proofs/` proves them, and this file has their
// witnesses: short functions over the entries, proved from their contracts alone. Sequences of calls are numbers, as in `clock_claims`, whose
// definitions they go by.
#![tactic(auto)]

ghost use Rattle.clock_claims.specs.Witnesses.{calls_of};
ghost use Rattle.measuring.specs.Measuring.{MeasureSays};
ghost use Rattle.mark_claims.specs.Marks.{Marked, ReportedWell};

use base_types::{Microtick, SignedMicrotick};
use clock::Clock;
use closing::{CloseRefusal, Report};
use measuring::MeasureRefusal;
use refusal::Answered;
use settings::{Mark, Settings};
use slot::Status;

// Plays a sequence of calls. Everything that is listed then carries the mark of the last load.
pub fn listed(
    sheet: Settings,
    other_sheet: Settings,
    status: Status,
    other_status: Status,
    numbers: &[u64],
) -> Clock
    ensures { Marked (calls_of sheet other_sheet status other_status numbers.now) result }
{
    clock_claims::played(sheet, other_sheet, status, other_status, numbers)
}

// Closes after such a sequence. The report carries the mark of the last load, and is made of what was called since any load in it: two
// sheets with one mark are two.
pub fn reported(
    sheet: Settings,
    other_sheet: Settings,
    status: Status,
    other_status: Status,
    numbers: &[u64],
    offset_control: i32,
    rate_control: i32,
) -> Answered<Report, CloseRefusal, Clock>
    ensures { ReportedWell (calls_of sheet other_sheet status other_status numbers.now) offset_control rate_control result }
{
    let state = clock_claims::played(sheet, other_sheet, status, other_status, numbers);
    closing::close_cycle(state, offset_control, rate_control)
}

// Measures a status as if its slot had been opened under another mark. That is the same as measuring the one that was handed in.
pub fn measured_under(
    state: Clock,
    status: Status,
    mark: Mark,
    observed: Microtick,
    action_point: Microtick,
) -> Answered<SignedMicrotick, MeasureRefusal, Clock>
    ensures { MeasureSays state status observed action_point result }
{
    let settings = Settings {
        mark,
        ..status.settings
    };
    measuring::measure(state, Status { settings, ..status }, observed, action_point)
}
