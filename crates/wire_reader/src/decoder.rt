// From bits to frames: what each strobed bit means.
ghost use Rattle.std.specs.Prelude.{◌≡◌, ◌+◌, ◌<◌, ◌≤◌, length, take, set, None, Some, Err};
ghost use Rattle.frame.specs.Read.{rule_on};
ghost use Rattle.header.specs.Layout.{longest_frame};
ghost use Rattle.wire_reader.specs.Pending.{decoded_by, after_of, RoomFor};
ghost use Rattle.wire_reader.specs.declared.phase.Phase.TheVariants.{Waiting};
ghost use Rattle.wire_reader.specs.Sound.{most_before};
ghost use Rattle.wire_reader.specs.Decoder.{behind_byte, judged, decoded};

use crate::event::{Event, Heard, WireError};
use crate::phase::{MOST_HIGH, MOST_LOW, Phase};
use base_types::Channel;
use frame::ReadRefusal;

// How many bytes of a frame have come, and the samples since its reference point. The bytes are the first of the caller's memory.
#[derive(Clone, Copy)]
pub(crate) struct Bytes {
    pub count: u16,
    pub since: u32,
}

// What comes of a strobed bit.
#[derive(Clone, Copy)]
pub(crate) struct Decoded {
    pub phase: Phase,
    pub bytes: Bytes,
    pub event: Event,
}

// After a bit, by phase. `idle` tells that the channel is idle at its strobe; the samples since the reference point count that of this bit.
pub(crate) fn decode(
    channel: Channel,
    phase: Phase,
    bit: bool,
    idle: bool,
    bytes: Bytes,
    memory: &mut [u8],
) -> Decoded
    requires { (longest_frame ≤ length memory.old) × RoomFor phase bytes.count }
    ensures { decoded_by result memory.new ≡ decoded phase bit channel idle bytes.count bytes.since memory.old }
{
    match phase {
        Phase::Waiting => {
            if bit {
                return entered(Phase::Waiting);
            }
            if idle {
                entered(Phase::Start(1))
            } else {
                entered(Phase::Waiting)
            }
        }
        Phase::Start(n) => {
            if bit {
                return entered(Phase::FrameStart(1));
            }
            if n < MOST_LOW {
                entered(Phase::Start(n + 1))
            } else {
                failed(WireError::StartTooLong)
            }
        }
        Phase::FrameStart(n) => {
            if !bit {
                return entered(Phase::Byte(0, 0));
            }
            if n < MOST_HIGH {
                entered(Phase::FrameStart(n + 1))
            } else {
                failed(WireError::FrameStartTooLong)
            }
        }
        Phase::ByteStart => {
            if bit {
                bytes.moved_to(Phase::ByteStartLow)
            } else {
                failed(WireError::ByteStartNotHigh)
            }
        }
        Phase::ByteStartLow => {
            if bit {
                failed(WireError::ByteStartNotLow)
            } else {
                bytes.moved_to(Phase::Byte(0, 0))
            }
        }
        Phase::Byte(n, value) => {
            let more = value * 2 + u8::from(bit);
            if n < 7 {
                return bytes.moved_to(Phase::Byte(n + 1, more));
            }
            bytes.with(more, memory)
        }
        Phase::End => {
            if bit {
                return failed(WireError::EndNotLow);
            }
            bytes.judged(channel, memory)
        }
        Phase::EndHigh => {
            if bit {
                entered(Phase::Waiting)
            } else {
                failed(WireError::EndNotHigh)
            }
        }
    }
}

impl Bytes {
    // No byte, and no reference point.
    const NONE: Bytes = Bytes { count: 0, since: 0 };

    // On to a phase with these bytes.
    fn moved_to(self, phase: Phase) -> Decoded
        ensures { result ≡ record { phase = phase; bytes = self; event = None } }
    {
        Decoded {
            phase,
            bytes: self,
            event: None,
        }
    }

    // After the last bit of one more byte.
    fn with(self, value: u8, memory: &mut [u8]) -> Decoded
        requires { (longest_frame ≤ length memory.old) × (self.count ≤ most_before) }
        ensures { decoded_by result memory.new ≡ behind_byte (self.count + 1) self.since (set memory.old self.count value) }
    {
        memory[self.count as usize] = value;
        let count = self.count + 1;
        match behind(&memory[..count as usize]) {
            Ok(phase) => Bytes {
                count,
                since: self.since,
            }
            .moved_to(phase),
            Err(refusal) => failed(WireError::NotAFrame(refusal)),
        }
    }

    // At the low bit of the end: reading decides.
    fn judged(self, channel: Channel, memory: &[u8]) -> Decoded
        requires { self.count ≤ length memory.now }
        ensures { decoded_by result memory.now ≡ judged (rule_on channel (take self.count memory.now)) self.count self.since memory.now }
    {
        let size = self.count as usize;
        match frame::read_on(channel, &memory[..size]) {
            Ok(header) => told(
                Phase::EndHigh,
                Ok(Heard {
                    header,
                    size,
                    since: self.since,
                }),
            ),
            Err(refusal) => failed(WireError::NotAFrame(refusal)),
        }
    }
}

// The phase behind these bytes of a frame, or what is wrong with them.
fn behind(bytes: &[u8]) -> Result<Phase, ReadRefusal>
    ensures { result ≡ after_of bytes.now }
{
    if bytes.len() < 5 {
        return Ok(Phase::ByteStart);
    }
    let sent = lent_bytes::number_in(&bytes[..5]);
    let header = header::unpacked(sent);
    let size = 8 + 2 * header.words as usize;
    if bytes.len() == 5 {
        let checksums = header::checksums_of(sent);
        if checksums.differ() {
            return Err(ReadRefusal::HeaderChecksumDiffers(checksums));
        }
        return Ok(Phase::ByteStart);
    }
    if size <= bytes.len() {
        Ok(Phase::End)
    } else {
        Ok(Phase::ByteStart)
    }
}

// To a phase without bytes, or to the first byte.
fn entered(phase: Phase) -> Decoded
    ensures { result ≡ record { phase = phase; bytes = record { count = 0; since = 0 }; event = None } }
{
    Bytes::NONE.moved_to(phase)
}

// An error ends the frame, and the reader waits.
fn failed(error: WireError) -> Decoded
    ensures { result ≡ record { phase = Waiting; bytes = record { count = 0; since = 0 }; event = Some (Err error) } }
{
    told(Phase::Waiting, Err(error))
}

// What a frame that has ended tells.
fn told(phase: Phase, what: Result<Heard, WireError>) -> Decoded
    ensures { result ≡ record { phase = phase; bytes = record { count = 0; since = 0 }; event = Some what } }
{
    Decoded {
        phase,
        bytes: Bytes::NONE,
        event: Some(what),
    }
}
