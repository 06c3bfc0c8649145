// A sync frame measured (document 01, "Clock").
//
// Entry: `measure` on a clock state, a slot status and two times. It takes whatever comes and gives an answer and a clock state.
#![tactic(auto)]

ghost use Rattle.std.specs.Prelude.{◌≡◌};
ghost use Rattle.base_types.specs.Microtick.{held};
ghost use Rattle.measuring.specs.Measuring.{number_of, sync_frame, delay_on, deviation_by, measurement_with, FrameSays, MeasureSays};

use base_types::{Channel, Microtick, SignedMicrotick};
use clock::Clock;
use header::Header;
use refusal::{Answered, Refusal};
use settings::{Field, Settings};
use slot::Status;
use sync_list::Measurement;

// Why a frame is not measured.
#[derive(Clone, Copy)]
pub enum MeasureRefusal {
    NotSound,
    NoCycleOpen,
    TimeTooHigh,
    NoSyncFrame,
    OtherCycle,
    MeasuredAlready,
    ListFull,
}

impl Refusal for MeasureRefusal {
    ghost number_of = { number_of };

    fn number(self) -> u8 {
        match self {
            MeasureRefusal::NotSound => 23,
            MeasureRefusal::NoCycleOpen => 18,
            MeasureRefusal::TimeTooHigh => 14,
            MeasureRefusal::NoSyncFrame => 20,
            MeasureRefusal::OtherCycle => 22,
            MeasureRefusal::MeasuredAlready => 16,
            MeasureRefusal::ListFull => 15,
        }
    }
}

// Measures the frame that a slot kept, by the time at which it was observed and the action point at which it was expected, both by one
// counter. It may run on through an odd cycle: only their difference counts. With a refusal the state is the one handed in.
#[tactic(auto, unfolding(refusal::specs::Refusal::first))]
pub fn measure(
    clock: Clock,
    status: Status,
    observed: Microtick,
    action_point: Microtick,
) -> Answered<SignedMicrotick, MeasureRefusal, Clock>
    ensures { MeasureSays clock status observed action_point result }
{
    match frame_to_measure(clock, status, observed, action_point) {
        Ok(frame) => {
            let cycle = clock.current_cycle();
            let list = clock.list_of(cycle);
            let measurement = measurement_by(clock, status, observed, action_point);
            let next = list.with(frame.id, status.channel, measurement);
            Answered::accepted(measurement.deviation, clock.with_list(cycle, next))
        }
        Err(refusal) => Answered::refused(refusal, clock),
    }
}

// The frame that is measured. The tests come in 01's order. (No clock state is returned here: it is large, and each return copies it, DECISIONS 203.)
#[tactic(auto, unfolding(refusal::specs::Refusal::first))]
fn frame_to_measure(
    clock: Clock,
    status: Status,
    observed: Microtick,
    action_point: Microtick,
) -> Result<Header, MeasureRefusal>
    ensures { FrameSays clock status observed action_point result }
{
    if !clock::is_sound(clock) || !slot::is_sound(status) {
        return Err(MeasureRefusal::NotSound);
    }
    let cycle = clock.opened.ok_or(MeasureRefusal::NoCycleOpen)?;
    if observed.is_above_limit() || action_point.is_above_limit() {
        return Err(MeasureRefusal::TimeTooHigh);
    }
    let frame = sync_frame(status).ok_or(MeasureRefusal::NoSyncFrame)?;
    let list = clock.list_of(cycle);
    // Both are worked out before either is told: a build that tries them the other way round then differs in the order alone, and it is
    // the order that it is refused for.
    let is_other = frame.cycle != cycle;
    let is_measured = list.has(frame.id, status.channel);
    if is_other {
        return Err(MeasureRefusal::OtherCycle);
    }
    if is_measured {
        return Err(MeasureRefusal::MeasuredAlready);
    }
    if list.is_full_for(clock.settings.get(Field::SyncIdLimit), frame.id) {
        return Err(MeasureRefusal::ListFull);
    }
    Ok(frame)
}

// The frame that a status keeps, where it is a sync frame of a static slot. Any other status is refusal 20.
fn sync_frame(status: Status) -> Option<Header>
    ensures { result ≡ sync_frame status }
{
    let frame = status.kept?;
    if frame.sync && slot::is_static(status) {
        return Some(frame);
    }
    None
}

// The deviation, by the clock's settings and the status's channel.
fn deviation_by(
    clock: Clock,
    status: Status,
    observed: Microtick,
    action_point: Microtick,
) -> SignedMicrotick
    ensures { result.0 ≡ held (deviation_by clock status observed action_point) }
{
    let settings = clock.settings;
    let delay = delay_on(status.channel, settings);
    correction::deviation(
        observed,
        settings.get(Field::DecodingCorrection),
        delay,
        action_point,
    )
}

// The measurement that is listed, by the same; its mark is that of the clock's settings.
fn measurement_by(
    clock: Clock,
    status: Status,
    observed: Microtick,
    action_point: Microtick,
) -> Measurement
    ensures { result ≡ measurement_with held clock.settings status observed action_point }
{
    Measurement {
        deviation: deviation_by(clock, status, observed, action_point),
        mark: clock.settings.mark,
    }
}

fn delay_on(channel: Channel, settings: Settings) -> u32
    ensures { result ≡ delay_on channel settings }
{
    match channel {
        Channel::A => settings.get(Field::DelayA),
        Channel::B => settings.get(Field::DelayB),
    }
}
