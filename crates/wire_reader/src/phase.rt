// Where in a frame a reader is.
ghost use Rattle.std.specs.Prelude.{◌≡◌, ◌<◌};
ghost use Rattle.wire_reader.specs.Decoder.{is_data, counted};
ghost use Rattle.wire_reader.specs.Sound.{is_waiting, sound_phase};

use header::Header;

#[derive(Clone, Copy)]
pub enum Phase {
    // In none: it waits for the channel to be idle, and then for a low bit.
    Waiting,
    // So many low bits of the start have come,
    Start(u8),
    // so many high bits behind it.
    FrameStart(u8),
    // The high bit before a further byte comes next,
    ByteStart,
    // the low one,
    ByteStartLow,
    // a bit of a byte, of which so many have come and make this number.
    Byte(u8, u8),
    // The low bit of the end comes next,
    End,
    // the high one.
    EndHigh,
}

// "1 to 15 low bits" are sent, and two more are taken (002, section 3.2.6).
pub(crate) const MOST_LOW: u8 = 17;

// The frame start bit, the high bit of the first byte start, and one more.
pub(crate) const MOST_HIGH: u8 = 3;

// The most bytes before another one.
const MOST_BEFORE: u16 = 261;

// At most so many samples lie between two strobes.
const MOST_BETWEEN: u32 = 12;

impl Phase {
    // Whether the next bit is one of a byte's eight.
    pub(crate) fn is_data(self) -> bool
        ensures { result ≡ is_data self }
    {
        matches!(self, Phase::Byte(_, _))
    }

    // The samples since the reference point, with one more.
    pub(crate) fn counted(self, since: u32) -> u32
        requires { since < 4294967295 }
        ensures { result ≡ counted self since }
    {
        match self {
            Phase::Waiting | Phase::Start(_) | Phase::FrameStart(_) | Phase::EndHigh => 0,
            Phase::ByteStart | Phase::ByteStartLow | Phase::Byte(_, _) | Phase::End => since + 1,
        }
    }

    pub(crate) fn is_waiting(self) -> bool
        ensures { result ≡ is_waiting self }
    {
        matches!(self, Phase::Waiting)
    }

    // Whether the phase is sound with this count of bytes and these samples since the reference point. `slack` is how many of them there may
    // be behind the last strobe.
    pub(crate) fn is_sound(self, count: u16, since: u32, slack: u32) -> bool
        requires { slack < 12 }
        ensures { result ≡ sound_phase self count since slack }
    {
        let no_bytes = (count == 0) & (since == 0);
        let bits = 10 * count as u32;
        match self {
            Phase::Waiting => no_bytes,
            Phase::Start(n) => (1..=MOST_LOW).contains(&n) & no_bytes,
            Phase::FrameStart(n) => (1..=MOST_HIGH).contains(&n) & no_bytes,
            Phase::ByteStart => {
                (1..=MOST_BEFORE).contains(&count) & (since <= MOST_BETWEEN * bits + slack)
            }
            Phase::ByteStartLow => {
                (1..=MOST_BEFORE).contains(&count) & (since <= MOST_BETWEEN * (bits + 1) + slack)
            }
            Phase::Byte(n, value) => {
                if 7 < n {
                    return false;
                }
                let most = MOST_BETWEEN * (bits + 2 + n as u32) + slack;
                (value >> n == 0) & ((count <= MOST_BEFORE) & (since <= most))
            }
            Phase::End => {
                (8..=Header::LONGEST_FRAME as u16).contains(&count)
                    & (since <= MOST_BETWEEN * bits + slack)
            }
            Phase::EndHigh => no_bytes,
        }
    }
}
