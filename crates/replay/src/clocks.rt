// The commands on the clock: loading, opening a cycle, measuring and closing. Each writes its line, and holds the clock state that comes back.
use crate::script::{Script, ScriptError};
use crate::{line, sheet};
use base_types::{Cycle, Microtick, SignedMicrotick};
use clock::Clock;
use closing::Report;
use refusal::Answer;
use slot::Status;
use std::io::Read;

// How many bytes stand behind `L`, `M` and `C`.
const LOAD_SIZE: usize = sheet::SIZE + sheet::MARK_SIZE;

const MEASURE_SIZE: usize = 8;

const CLOSE_SIZE: usize = 2;

// `L`, with settings and mark: `load N FIELD`
pub fn load(
    script: &mut Script<impl Read>,
    to: &impl Print,
    clock: &mut Clock,
) -> Result<(), ScriptError> {
    let bytes = script.array::<LOAD_SIZE>()?;
    let mut item = Script::new(&bytes[..]);
    let mut settings = sheet::take(&mut item)?;
    settings.mark = sheet::take_mark(&mut item)?;
    let loaded = clock::load(settings);
    *clock = loaded.state;
    let field = clock::field_told(loaded.answer);
    line::write(to, format_args!("load {} {field}", loaded.answer.number()));
    Ok(())
}

// `O`, with a cycle: `open N`
pub fn open_cycle(
    script: &mut Script<impl Read>,
    to: &impl Print,
    clock: &mut Clock,
) -> Result<(), ScriptError> {
    let cycle = Cycle(script.u8()?);
    let opened = clock::open_cycle(*clock, cycle);
    *clock = opened.state;
    line::write(to, format_args!("open {}", opened.answer.number()));
    Ok(())
}

// `M`, with observed time and action point: `measure N DEVIATION`. The frame is that of the status that is held.
pub fn measure(
    script: &mut Script<impl Read>,
    to: &impl Print,
    clock: &mut Clock,
    status: Status,
) -> Result<(), ScriptError> {
    let bytes = script.array::<MEASURE_SIZE>()?;
    let mut item = Script::new(&bytes[..]);
    let observed = Microtick(item.u32()?);
    let action_point = Microtick(item.u32()?);
    let measured = measuring::measure(*clock, status, observed, action_point);
    *clock = measured.state;
    let deviation = measured.answer.unwrap_or(SignedMicrotick(0));
    line::write(
        to,
        format_args!("measure {} {}", measured.answer.number(), deviation.0),
    );
    Ok(())
}

// `C`, with offset control and rate control: `close N OFFSET RATE OM RM OL RL IDS MARK`
pub fn close_cycle(
    script: &mut Script<impl Read>,
    to: &impl Print,
    clock: &mut Clock,
) -> Result<(), ScriptError> {
    let bytes = script.array::<CLOSE_SIZE>()?;
    let mut item = Script::new(&bytes[..]);
    let offset_control = i32::from(item.i8()?);
    let rate_control = i32::from(item.i8()?);
    let closed = closing::close_cycle(*clock, offset_control, rate_control);
    *clock = closed.state;
    let report = closed.answer.unwrap_or(Report::NONE);
    line::write(
        to,
        format_args!(
            "close {} {} {} {} {} {} {} {} {}",
            closed.answer.number(),
            report.offset.0,
            report.rate.0,
            u8::from(report.offset_missing),
            u8::from(report.rate_missing),
            u8::from(report.offset_limited),
            u8::from(report.rate_limited),
            report.ids,
            report.mark.0
        ),
    );
    Ok(())
}
