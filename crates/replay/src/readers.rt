// A reader of the wire in a script, and in a line.
use crate::flags::{byte_of, flags_of};
use crate::line::{Hex, Shown};
use crate::script::{Script, ScriptError};
use crate::{line, statuses};
use bit_clock::BitClock;
use refusal::Answer;
use std::fmt;
use std::fmt::{Display, Formatter};
use std::io::Read;
use wire_reader::{Phase, Reader};

// `H`, with a channel: `reader N`
pub fn open(
    script: &mut Script<impl Read>,
    to: &impl Print,
    reader: &mut Reader,
) -> Result<(), ScriptError> {
    let opened = wire_reader::open_reader(script.u8()?);
    *reader = opened.state;
    line::write(to, format_args!("reader {}", opened.answer.number()));
    Ok(())
}

// How many bytes a reader has.
const SIZE: usize = 16;

// `V`: `reader put`
pub fn put(
    script: &mut Script<impl Read>,
    to: &impl Print,
    reader: &mut Reader,
) -> Result<(), ScriptError> {
    let bytes = script.array::<SIZE>()?;
    *reader = take(&mut Script::new(&bytes[..]))?;
    line::write(to, "reader put");
    Ok(())
}

// Channel switch, samples, seen, voted switch, counter, realigns switch, timer, phase, count, since.
fn take(script: &mut Script<impl Read>) -> Result<Reader, ScriptError> {
    let channel = statuses::take_channel(script)?;
    let [newest, newer, older, oldest, ..] = flags_of(script.u8()?);
    Ok(Reader {
        channel,
        clock: BitClock {
            oldest,
            older,
            newer,
            newest,
            seen: script.u8()?,
            voted: script.switch()?,
            counter: u32::from(script.u8()?),
            realigns: script.switch()?,
        },
        timer: script.u8()?,
        phase: take_phase(script)?,
        count: script.u16()?,
        since: script.u32()?,
    })
}

// Phase, number, value. A phase that has no number or no value does not look at it. (No TryFrom: the type and the trait are of other crates.)
fn take_phase(script: &mut Script<impl Read>) -> Result<Phase, ScriptError> {
    let phase = script.u8()?;
    let number = script.u8()?;
    let value = script.u8()?;
    match phase {
        0 => Ok(Phase::Waiting),
        1 => Ok(Phase::Start(number)),
        2 => Ok(Phase::FrameStart(number)),
        3 => Ok(Phase::ByteStart),
        4 => Ok(Phase::ByteStartLow),
        5 => Ok(Phase::Byte(number, value)),
        6 => Ok(Phase::End),
        7 => Ok(Phase::EndHigh),
        _ => Err(ScriptError),
    }
}

// PHASE NUMBER VALUE
impl Display for Shown<Phase> {
    fn fmt<W: fmt::Write>(&self, f: &mut Formatter<W>) -> fmt::Result {
        match self.0 {
            Phase::Waiting => f.write_str("0 0 0"),
            Phase::Start(number) => write!(f, "1 {number} 0"),
            Phase::FrameStart(number) => write!(f, "2 {number} 0"),
            Phase::ByteStart => f.write_str("3 0 0"),
            Phase::ByteStartLow => f.write_str("4 0 0"),
            Phase::Byte(number, value) => write!(f, "5 {number} {value}"),
            Phase::End => f.write_str("6 0 0"),
            Phase::EndHigh => f.write_str("7 0 0"),
        }
    }
}

// `Z`: `reader CHANNEL SAMPLES SEEN VOTED COUNTER REALIGNS TIMER PHASE NUMBER VALUE COUNT SINCE MEMORY`
pub fn show(to: &impl Print, reader: Reader, memory: &[u8]) {
    let clock = reader.clock;
    let samples = byte_of(&[clock.newest, clock.newer, clock.older, clock.oldest]);
    line::write(
        to,
        format_args!(
            "reader {} {samples} {} {} {} {} {} {} {} {} {}",
            u8::from(reader.channel),
            clock.seen,
            u8::from(clock.voted),
            clock.counter,
            u8::from(clock.realigns),
            reader.timer,
            Shown(reader.phase),
            reader.count,
            reader.since,
            Hex(memory)
        ),
    );
}
