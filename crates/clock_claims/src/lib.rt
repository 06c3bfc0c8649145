// What follows from the clock's rules. `specs/` states the claims, `proofs/` proves them, and this file has their witnesses:
// short functions over the entries, proved from their contracts alone.
#![tactic(auto)]

ghost use Rattle.std.specs.Prelude.{◌≡◌, true, false, ◌↔◌};
ghost use Rattle.clock_claims.specs.Sound.{SoundClock};
ghost use Rattle.clock_claims.specs.Histories.{Leaves};
ghost use Rattle.clock_claims.specs.Witnesses.{LoadedWell, OpenedWell, MeasuredWell, ClosedWell, control_of, call_of, calls_of, Played, ClosedAfter};

use base_types::{Cycle, Microtick, SignedMicrotick};
use clock::{Clock, CycleRefusal};
use closing::{CloseRefusal, Report};
use measuring::MeasureRefusal;
use refusal::Answered;
use settings::{SettingOutOfRange, Settings};
use slot::Status;

// Whether a clock state is sound: exactly where it meets 01's sentence.
pub fn is_sound_in_words(state: Clock) -> bool
    ensures { (result ≡ true) ↔ SoundClock state }
{
    clock::is_sound(state)
}

// Whether the all-zero state is sound. It is not.
pub fn none_is_sound() -> bool
    ensures { result ≡ false }
{
    clock::is_sound(Clock::none())
}

// The answer of each entry, and the state beside it.
pub fn loaded(settings: Settings) -> Answered<(), SettingOutOfRange, Clock>
    ensures { LoadedWell settings result }
{
    clock::load(settings)
}

pub fn opened(state: Clock, cycle: Cycle) -> Answered<(), CycleRefusal, Clock>
    ensures { OpenedWell state cycle result }
{
    clock::open_cycle(state, cycle)
}

pub fn measured(
    state: Clock,
    status: Status,
    observed: Microtick,
    action_point: Microtick,
) -> Answered<SignedMicrotick, MeasureRefusal, Clock>
    ensures { MeasuredWell state status observed action_point result }
{
    measuring::measure(state, status, observed, action_point)
}

pub fn closed(
    state: Clock,
    offset_control: i32,
    rate_control: i32,
) -> Answered<Report, CloseRefusal, Clock>
    ensures { ClosedWell state offset_control rate_control result }
{
    closing::close_cycle(state, offset_control, rate_control)
}

// A control from a number: -1, 0, 1, or 2, which is none. Calls, times and controls are numbers here, and no enum: `EveryCall` and the edit
// `no_time_above_the_limit` speak of those numbers.
fn control_of(number: u64) -> i32
    ensures { result ≡ control_of number }
{
    match number % 4 {
        0 => -1,
        1 => 0,
        2 => 1,
        _ => 2,
    }
}

// How many times there are up to one above the limit.
const SPAN: u64 = Microtick::LIMIT as u64 + 2;

// Where the second time starts in a number: behind the kind and the first.
const SECOND: u64 = 8 * SPAN;

// One call, by its number. (Numbers, as for `control_of`; so are the two functions below.)
fn called(
    sheet: Settings,
    other_sheet: Settings,
    status: Status,
    other_status: Status,
    state: Clock,
    number: u64,
) -> Clock
    ensures { Leaves state (call_of sheet other_sheet status other_status number) result }
{
    let first = number / 8 % SPAN;
    let second = number / SECOND % SPAN;
    match number % 8 {
        0 => clock::load(sheet).state,
        1 => clock::load(other_sheet).state,
        2 => clock::open_cycle(state, Cycle((first % 256) as u8)).state,
        3 => {
            measuring::measure(
                state,
                status,
                Microtick(first as u32),
                Microtick(second as u32),
            )
            .state
        }
        4 => {
            measuring::measure(
                state,
                other_status,
                Microtick(first as u32),
                Microtick(second as u32),
            )
            .state
        }
        _ => closing::close_cycle(state, control_of(first), control_of(second)).state,
    }
}

// Plays one call for each number, loads and refused calls among them, from the all-zero state on. The state at the end. Every kind of
// call with any two times up to one above the limit has its number (`EveryCall`).
pub fn played(
    sheet: Settings,
    other_sheet: Settings,
    status: Status,
    other_status: Status,
    numbers: &[u64],
) -> Clock
    ensures { Played (calls_of sheet other_sheet status other_status numbers.now) result }
{
    let mut state = Clock::none();
    for number in numbers {
        state = called(sheet, other_sheet, status, other_status, state, *number);
    }
    state
}

// Closes after such a sequence.
pub fn closed_after(
    sheet: Settings,
    other_sheet: Settings,
    status: Status,
    other_status: Status,
    numbers: &[u64],
    offset_control: i32,
    rate_control: i32,
) -> Answered<Report, CloseRefusal, Clock>
    ensures { ClosedAfter (calls_of sheet other_sheet status other_status numbers.now) offset_control rate_control result }
{
    let state = played(sheet, other_sheet, status, other_status, numbers);
    closing::close_cycle(state, offset_control, rate_control)
}
