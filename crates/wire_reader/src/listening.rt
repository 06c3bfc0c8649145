// Samples listened to.
ghost use Rattle.std.specs.Prelude.{◌≡◌, true, ◌≤◌, length, Ok, Err};
ghost use Rattle.header.specs.Layout.{longest_frame};
ghost use Rattle.wire_reader.specs.Sound.{sound};
ghost use Rattle.wire_reader.specs.Pending.{TakeSays};
ghost use Rattle.wire_reader.specs.Listening.{refusal_number, heard as listening_heard, ListenSays};

use crate::event::Event;
use crate::reader;
use crate::reader::Reader;
use header::Header;
use refusal::Refusal;

// What listening answers: what was heard, or why nothing was listened to. An error that was heard is no refusal.
pub type Listening = Result<Event, ListenRefusal>;

#[derive(Clone, Copy)]
pub enum ListenRefusal {
    NotSound,
    MemoryTooShort,
}

impl Refusal for ListenRefusal {
    ghost number_of = { refusal_number };

    fn number(self) -> u8 {
        match self {
            ListenRefusal::NotSound => 23,
            ListenRefusal::MemoryTooShort => 36,
        }
    }
}

// How many samples were taken, the one that told something among them, and the reader behind them. (Not `Answered`: with a refusal too it tells how
// many were taken, none.)
#[derive(Clone, Copy)]
pub struct Listened {
    pub answer: Listening,
    pub taken: usize,
    pub reader: Reader,
}

// Listens to samples, up to the first that tells something. A frame's bytes are gathered in the memory, and lie at its front when it is
// told. With a refusal the reader and the memory are as they were.
pub fn listen(reader: Reader, samples: &[u8], memory: &mut [u8]) -> Listened
    ensures { ListenSays reader samples.now memory.old memory.new result }
{
    // Both are asked before either is told (DECISIONS 70): a build that tries 36 before 23 then differs in the order alone.
    let is_not_sound = !reader.is_sound();
    let is_too_short = memory.len() < Header::LONGEST_FRAME;
    if is_not_sound {
        return refused(ListenRefusal::NotSound, reader);
    }
    if is_too_short {
        return refused(ListenRefusal::MemoryTooShort, reader);
    }
    take(reader, samples, memory)
}

fn refused(refusal: ListenRefusal, handed_in: Reader) -> Listened
    ensures { result ≡ record { answer = Err refusal; taken = 0; reader = handed_in } }
{
    Listened {
        answer: Err(refusal),
        taken: 0,
        reader: handed_in,
    }
}

// Takes samples, up to the first that tells something. (That the memory takes the longest frame is asked by each function down to the decoder:
// a slice of just that size would hide the bytes behind it, of which the rule says that they stay.)
fn take(reader: Reader, samples: &[u8], memory: &mut [u8]) -> Listened
    requires { (sound reader ≡ true) × (longest_frame ≤ length memory.old) }
    ensures { TakeSays reader.channel (listening_heard reader samples.now memory.old) memory.new result }
{
    let mut state = reader;
    for (i, level) in samples.iter().enumerate() {
        let s = reader::sample(state, *level != 0, memory);
        state = s.reader;
        if s.event.is_some() {
            return heard(s.event, i + 1, state);
        }
    }
    heard(None, samples.len(), state)
}

fn heard(event: Event, taken: usize, reader: Reader) -> Listened
    ensures { result ≡ record { answer = Ok event; taken = taken; reader = reader } }
{
    Listened {
        answer: Ok(event),
        taken,
        reader,
    }
}
