// What follows from the rules of reading the wire. `specs/` states the claims, `proofs/` proves them, and this file has their
// witnesses: short functions over the entries, proved from their contracts alone.
#![tactic(auto)]

ghost use Rattle.std.specs.Prelude.{◌≡◌, true, not, ◌∷◌};
ghost use Rattle.base_types.specs.Channel.{not_a_channel};
ghost use Rattle.wire_reader.specs.Sound.{sound};
ghost use Rattle.wire_reader.specs.Listening.{told_by, ListenSays};
ghost use Rattle.reader_claims.specs.Answers.{NumberTold, Alike};
ghost use Rattle.reader_claims.specs.Checksums.{ErrorTold};
ghost use Rattle.reader_claims.specs.Numbers.{is_one_of, error_numbers};
ghost use Rattle.reader_claims.specs.Playing.{PlayedSays};

use refusal::Answer;
use wire_reader::{Event, Listened, Reader};

// The number that listening gives: the first of its order whose condition holds. With any but 0 the reader and the memory are as they were.
// (A number: what is claimed here is of the number, the reader and the memory.)
pub fn listen_number(reader: Reader, samples: &[u8], memory: &mut [u8]) -> u8
    ensures { NumberTold reader memory.old memory.new result }
{
    wire_reader::listen(reader, samples, memory).answer.number()
}

// What was heard: with error 4 or 8 two checksums that differ, and 0 for both with any other.
pub fn checksums_heard(reader: Reader, samples: &[u8], memory: &mut [u8]) -> Event
    ensures { ErrorTold (told_by result) }
{
    wire_reader::listen(reader, samples, memory)
        .answer
        .unwrap_or(None)
}

// Whether the reader that is opened is sound: exactly where it is not refused.
pub fn sound_when_opened(channel: u8) -> bool
    ensures { result ≡ not (not_a_channel channel) }
{
    wire_reader::open_reader(channel).state.is_sound()
}

// Whether the reader is sound behind the samples: exactly where it was before.
pub fn sound_behind(reader: Reader, samples: &[u8], memory: &mut [u8]) -> bool
    ensures { result ≡ sound reader }
{
    wire_reader::listen(reader, samples, memory)
        .reader
        .is_sound()
}

// Listens to samples cut in two, and meets the statement of listening to all of them in one piece.
pub fn listen_in_two(reader: Reader, samples: &[u8], cut: usize, memory: &mut [u8]) -> Listened
    ensures { ListenSays reader samples.now memory.old memory.new result }
{
    if samples.len() < cut {
        return wire_reader::listen(reader, samples, memory);
    }
    let first = wire_reader::listen(reader, &samples[..cut], memory);
    let Ok(event) = first.answer else {
        return first;
    };
    if event.is_some() {
        return first;
    }
    let second = wire_reader::listen(first.reader, &samples[cut..], memory);
    Listened {
        answer: second.answer,
        taken: first.taken + second.taken,
        reader: second.reader,
    }
}

// Whether a frame that is told is read again from the memory, with the same header, on the reader's channel; true also where none is told.
pub fn given_again(reader: Reader, samples: &[u8], memory: &mut [u8]) -> bool
    ensures { result ≡ true }
{
    let heard = wire_reader::listen(reader, samples, memory);
    let Some(Ok(told)) = heard.answer.unwrap_or(None) else {
        return true;
    };
    if memory.len() < told.size {
        return false;
    }
    frame::read_on(reader.channel, &memory[..told.size]).is_ok()
}

// Whether two calls that differ in the bytes of high samples alone, each with its own memory, take as many samples. They leave the same memory
// too.
pub fn heard_alike(
    reader: Reader,
    samples: &[u8],
    first: &mut [u8],
    others: &[u8],
    second: &mut [u8],
) -> bool
    ensures { Alike samples.now first.old first.new others.now second.old second.new result }
{
    let heard = wire_reader::listen(reader, samples, first);
    let other = wire_reader::listen(reader, others, second);
    heard.taken == other.taken
}

// The number of the first event of a reader that is opened: that of an error, or 0 where nothing or a frame is told, or a call is refused.
// (A number, since the claim lists 01's numbers.)
pub fn first_number(channel: u8, samples: &[u8], memory: &mut [u8]) -> u8
    ensures { is_one_of result (0 ∷ error_numbers) ≡ true }
{
    let opened = wire_reader::open_reader(channel);
    let heard = wire_reader::listen(opened.state, samples, memory);
    match heard.answer.unwrap_or(None) {
        Some(told) => told.number(),
        None => 0,
    }
}

// What came of samples that were played to their end.
#[derive(Clone, Copy)]
pub struct Played {
    pub frames: usize,
    pub errors: usize,
    pub reader: Reader,
}

// Plays samples to their end, call after call, and counts the frames and the errors that are told.
pub fn play(reader: Reader, samples: &[u8], memory: &mut [u8]) -> Played
    ensures { PlayedSays reader samples.now memory.old memory.new result }
{
    let mut state = reader;
    let mut at = 0;
    let mut frames = 0;
    let mut errors = 0;
    // (No `for`: a call takes as many samples as it likes.)
    while at < samples.len() {
        let heard = wire_reader::listen(state, &samples[at..], memory);
        at += heard.taken;
        state = heard.reader;
        let Some(told) = heard.answer.unwrap_or(None) else {
            return Played {
                frames,
                errors,
                reader: state,
            };
        };
        let is_frame = told.is_ok();
        frames += usize::from(is_frame);
        errors += usize::from(!is_frame);
    }
    Played {
        frames,
        errors,
        reader: state,
    }
}
