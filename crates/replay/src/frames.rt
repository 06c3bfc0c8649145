// The commands on frames: frame checksum, read, write, the bench line and encode.
use crate::flags::flags_of;
use crate::line;
use crate::line::{Hex, Shown};
use crate::script::{MOST, Script, ScriptError};
use base_types::{Cycle, Slot};
use header::Fields;
use refusal::{Answer, Refusal};
use std::io::Read;

// What lent output has before the call.
const UNTOUCHED: u8 = 0xA5;

// `F`, with channel and bytes: `checksum N VALUE`
pub fn checksum(script: &mut Script<impl Read>, to: &impl Print) -> Result<(), ScriptError> {
    let channel = script.u8()?;
    let mut space = [0; MOST];
    let bytes = script.bytes(&mut space)?;
    let answer = checksum::frame_checksum(channel, bytes);
    line::write(
        to,
        format_args!("checksum {} {}", answer.number(), answer.unwrap_or(0)),
    );
    Ok(())
}

// `R`, with channel and bytes: `read 0 RESERVED PREAMBLE NULL SYNC STARTUP ID WORDS CHECKSUM CYCLE PAYLOAD FOUND EXPECTED`, or
// `read N PAYLOAD FOUND EXPECTED`
pub fn read(script: &mut Script<impl Read>, to: &impl Print) -> Result<(), ScriptError> {
    let channel = script.u8()?;
    let mut space = [0; MOST];
    let bytes = script.bytes(&mut space)?;
    let reading = frame::read(channel, bytes);
    let payload = Hex(frame::payload(channel, bytes));
    let checksums = Shown(frame::checksums_told(reading));
    match reading {
        Ok(header) => line::write(
            to,
            format_args!("read 0 {} {payload} {checksums}", Shown(header)),
        ),
        Err(refusal) => line::write(
            to,
            format_args!("read {} {payload} {checksums}", refusal.number()),
        ),
    }
    Ok(())
}

// How many bytes `W` has before its size, and `E`.
const WRITE_SIZE: usize = 5;

const ENCODE_SIZE: usize = 2;

// `W`, with channel, flags, ID, cycle, payload and room: `write N LENGTH OUTPUT`
pub fn write(script: &mut Script<impl Read>, to: &impl Print) -> Result<(), ScriptError> {
    let bytes = script.array::<WRITE_SIZE>()?;
    let mut item = Script::new(&bytes[..]);
    let channel = item.u8()?;
    let fields = take_fields(&mut item)?;
    let mut space = [0; MOST];
    let payload = script.bytes(&mut space)?;
    let room = script.size(MOST)?;
    let mut output = [UNTOUCHED; MOST];
    let lent = &mut output[..room];
    let writing = writing::write(channel, fields, payload, lent);
    line::write(
        to,
        format_args!(
            "write {} {} {}",
            writing.number(),
            writing.unwrap_or(0),
            Hex(lent)
        ),
    );
    Ok(())
}

fn take_fields(script: &mut Script<impl Read>) -> Result<Fields, ScriptError> {
    let [reserved, preamble, null_frame_bit, sync, startup, ..] = flags_of(script.u8()?);
    Ok(Fields {
        reserved,
        preamble,
        null_frame_bit,
        sync,
        startup,
        id: Slot(script.u16()?),
        cycle: Cycle(script.u8()?),
    })
}

// `E`, with channel, start length, bytes and room: `encode N BITS OUTPUT FOUND EXPECTED`
pub fn encode(script: &mut Script<impl Read>, to: &impl Print) -> Result<(), ScriptError> {
    let [channel, start] = script.array::<ENCODE_SIZE>()?;
    let mut space = [0; MOST];
    let bytes = script.bytes(&mut space)?;
    let room = script.size(MOST)?;
    let mut output = [UNTOUCHED; MOST];
    let lent = &mut output[..room];
    let encoding = wire::encode(channel, bytes, start, lent);
    line::write(
        to,
        format_args!(
            "encode {} {} {} {}",
            encoding.number(),
            encoding.unwrap_or(0),
            Hex(lent),
            Shown(wire::checksums_told(encoding))
        ),
    );
    Ok(())
}

// `P`, with bytes: the line that the program `bench` writes for these bytes.
pub fn bench(script: &mut Script<impl Read>, to: &impl Print) -> Result<(), ScriptError> {
    let mut space = [0; MOST];
    let input = script.bytes(&mut space)?;
    let mut line = [0; bench_line::LONGEST];
    let end = bench_line::line(input, &mut line);
    let _ = to.write_all(&line[..end]);
    Ok(())
}
