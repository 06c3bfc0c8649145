// What a sample tells.
ghost use Rattle.std.specs.Prelude.{◌≡◌};
ghost use Rattle.wire_reader.specs.Event.{number_of, checksums_of};
ghost use Rattle.wire_reader.specs.Listening.{told_by, number_in, checksums_in};

use checksum::ChecksumPair;
use frame::ReadRefusal;
use header::Header;
use refusal::Refusal;

// A frame that was heard: its header, its size, and how many samples lie between its reference point and the sample that told it. Its bytes
// are the first of the lent memory.
#[derive(Clone, Copy)]
pub struct Heard {
    pub header: Header,
    pub size: usize,
    pub since: u32,
}

// Nothing, a frame, or what is wrong.
pub type Event = Option<Result<Heard, WireError>>;

// What is wrong on the wire. Bytes that are no frame come with the refusal of reading them.
#[derive(Clone, Copy)]
pub enum WireError {
    NotAFrame(ReadRefusal),
    StartTooLong,
    FrameStartTooLong,
    ByteStartNotHigh,
    ByteStartNotLow,
    EndNotLow,
    EndNotHigh,
}

// An error is heard, and refuses no call. Its number stands among 01's refusals.
impl Refusal for WireError {
    ghost number_of = { number_of };

    fn number(self) -> u8 {
        match self {
            WireError::NotAFrame(refusal) => refusal.number(),
            WireError::StartTooLong => 30,
            WireError::FrameStartTooLong => 31,
            WireError::ByteStartNotHigh => 32,
            WireError::ByteStartNotLow => 33,
            WireError::EndNotLow => 34,
            WireError::EndNotHigh => 35,
        }
    }
}

impl WireError {
    // The two checksums that reading tells of bytes that are no frame, 0 for both with any other error (02, C-18).
    pub fn checksums(self) -> ChecksumPair
        ensures { result ≡ checksums_of self }
    {
        match self {
            WireError::NotAFrame(refusal) => refusal.checksums(),
            _ => ChecksumPair::NONE,
        }
    }
}

// 01's number of an event: 0, or that of the error.
pub fn number_told(event: Event) -> u8
    ensures { result ≡ number_in (told_by event) }
{
    match event {
        Some(Err(error)) => error.number(),
        _ => 0,
    }
}

// The two checksums that an event tells: those of its error, and 0 for both with any other.
pub fn checksums_told(event: Event) -> ChecksumPair
    ensures { result ≡ checksums_in (told_by event) }
{
    match event {
        Some(Err(error)) => error.checksums(),
        _ => ChecksumPair::NONE,
    }
}
