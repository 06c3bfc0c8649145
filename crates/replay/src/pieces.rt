// A piece of samples in a script, which is runs, and what a reader hears of it.
use crate::held::{Held, MEMORY};
use crate::line;
use crate::line::{Hex, Shown};
use crate::script::{Script, ScriptError};
use arrayvec::ArrayVec;
use refusal::Refusal;
use std::io::Read;
use wire_reader::{Listening, Reader};

// The most runs of a piece, and the most samples.
const MOST_RUNS: usize = 3000;

const MOST_SAMPLES: usize = 24000;

// `Y`, with room and runs: a line for each call.
pub fn listen(
    script: &mut Script<impl Read>,
    to: &impl Print,
    held: &mut Held,
) -> Result<(), ScriptError> {
    let room = script.size(MEMORY)?;
    let samples = take_samples(script)?;
    let memory = &mut held.memory[..];
    hear_all(to, &mut held.reader, &samples, &mut memory[..room]);
    Ok(())
}

// The samples of the runs. (The space is fixed, so that no piece fails for lack of memory.)
fn take_samples(script: &mut Script<impl Read>) -> Result<ArrayVec<u8, MOST_SAMPLES>, ScriptError> {
    let runs = script.size(MOST_RUNS)?;
    let mut space = [0; 2 * MOST_RUNS];
    let bytes = &mut space[..2 * runs];
    script.fill(bytes)?;
    let mut samples = ArrayVec::new();
    for run in bytes.chunks_exact(2) {
        let [sample, count] = run else {
            return Err(ScriptError);
        };
        for _ in 0..*count {
            samples.try_push(*sample).map_err(|_| ScriptError)?;
        }
    }
    Ok(samples)
}

// As long as something is told and samples are left, the rest of the piece is listened to. A call that tells something takes a sample, so
// that there are no more calls than samples, or one.
fn hear_all(to: &impl Print, reader: &mut Reader, samples: &[u8], memory: &mut [u8]) {
    let mut rest = samples;
    for _ in 0..=samples.len() {
        let heard = wire_reader::listen(*reader, rest, memory);
        *reader = heard.reader;
        rest = rest.get(heard.taken..).unwrap_or(&[]);
        write_answer(to, heard.answer, heard.taken, memory);
        if !matches!(heard.answer, Ok(Some(_))) || rest.is_empty() {
            return;
        }
    }
}

// `heard N TAKEN FOUND EXPECTED`, or, with a frame,
// `heard 0 TAKEN SINCE RESERVED PREAMBLE NULL SYNC STARTUP ID WORDS CHECKSUM CYCLE BYTES FOUND EXPECTED`
fn write_answer(to: &impl Print, answer: Listening, taken: usize, memory: &[u8]) {
    let event = answer.unwrap_or(None);
    let checksums = Shown(wire_reader::checksums_told(event));
    if let Some(Ok(frame)) = event {
        let bytes = memory.get(..frame.size).unwrap_or(memory);
        line::write(
            to,
            format_args!(
                "heard 0 {taken} {} {} {} {checksums}",
                frame.since,
                Shown(frame.header),
                Hex(bytes)
            ),
        );
        return;
    }
    let number = match answer {
        Ok(event) => wire_reader::number_told(event),
        Err(refusal) => refusal.number(),
    };
    line::write(to, format_args!("heard {number} {taken} {checksums}"));
}
