// What is held from one command to the next: a clock state, a slot status, a reader of the wire and its memory.
use clock::Clock;
use slot::Status;
use wire_reader::Reader;

// How many bytes the reader's memory has: the longest frame, and some that must stay as they are.
pub const MEMORY: usize = 270;

#[derive(Clone, Copy)]
pub struct Held {
    pub clock: Clock,
    pub status: Status,
    pub reader: Reader,
    pub memory: [u8; MEMORY],
}

impl Held {
    // All states all zeros, and the memory untouched: what is held at the start.
    pub fn at_start() -> Held {
        Held {
            clock: Clock::none(),
            status: Status::none(),
            reader: Reader::none(),
            memory: [0xA5; MEMORY],
        }
    }
}
