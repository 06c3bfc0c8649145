// The two checksums of a frame (document 01, "Frame layout").
//
// Entry: `frame_checksum`, on a channel number and bytes. For the crates above: `header_checksum` and `frame_checksum_on`. Both divide as
// the loop of document 002, section 4.5.1, does: the header checksum bit by bit, the frame checksum a byte at a time, by the table of the
// crate `checksum_table`. `ChecksumPair` is what a comparison tells: the checksum found, and the one worked out.
#![tactic(auto)]

mod pair;

ghost use Rattle.std.specs.Prelude.{◌≡◌, [], ◌∷◌, ◌<◌, ◌≤◌, ◌^◌, min};
ghost use Rattle.division.specs.Bits.{odd, bits, bytes_bits};
ghost use Rattle.division.specs.Division.{Fed};
ghost use Rattle.checksum.specs.Checksums.{header_polynomial, header_division, frame_polynomial, frame_checksum};
ghost use Rattle.checksum.specs.FrameChecksum.{FrameChecksumSays};

use base_types::{Channel, NotAChannel};
pub use pair::ChecksumPair;

const HEADER_WIDTH: u32 = 11;

const HEADER_POLYNOMIAL: u32 = 0x385;

const HEADER_START: u32 = 0x01A;

const FRAME_WIDTH: u32 = 24;

// The header checksum's register after one more bit: shifted left, and with the polynomial taken in where the bit is not the top bit that
// left.
fn step(register: u32, next: u32) -> u32
    requires { (register < 2 ^ 11) × (next < 2) }
    ensures { Fed 11 header_polynomial register (odd next ∷ []) result }
{
    let top = register >> (HEADER_WIDTH - 1);
    let shifted = (register << 1) & ((1 << HEADER_WIDTH) - 1);
    if top == next {
        shifted
    } else {
        shifted ^ HEADER_POLYNOMIAL
    }
}

// The header checksum's register after the `count` low bits of `n`, the most significant first.
fn feed(register: u32, n: u64, count: u32) -> u32
    requires { (register < 2 ^ 11) × (count ≤ 64) }
    ensures { Fed 11 header_polynomial register (bits count n) result }
{
    let mut r = register;
    for place in (0..count).rev() {
        r = step(r, ((n >> place) % 2) as u32);
    }
    r
}

// The header checksum of a message: of the `count` low bits of a number, the most significant first, or of all 64 where `count` is more.
// A header's message has 20.
pub fn header_checksum(message: u64, count: u32) -> u16
    ensures { result ≡ header_division (bits (min count 64) message) }
{
    feed(HEADER_START, message, count.min(64)) as u16
}

// The frame checksum's register after one more byte: shifted left, and with an entry of the table taken in. What is looked up is the byte,
// with the eight bits that left the register taken into it.
fn feed_byte(register: u32, byte: u8) -> u32
    requires { register < 2 ^ 24 }
    ensures { Fed 24 frame_polynomial register (bits 8 byte) result }
{
    let top = register >> (FRAME_WIDTH - 8);
    let shifted = (register << 8) & ((1 << FRAME_WIDTH) - 1);
    shifted ^ checksum_table::entry(top ^ u32::from(byte))
}

// The frame checksum's register after bytes.
fn feed_bytes(register: u32, bytes: &[u8]) -> u32
    requires { register < 2 ^ 24 }
    ensures { Fed 24 frame_polynomial register (bytes_bits bytes.now) result }
{
    let mut r = register;
    for byte in bytes {
        r = feed_byte(r, *byte);
    }
    r
}

// The frame checksum of bytes on a channel.
pub fn frame_checksum_on(channel: Channel, bytes: &[u8]) -> u32
    ensures { result ≡ frame_checksum channel bytes.now }
{
    feed_bytes(channel.start(), bytes)
}

// The frame checksum of any bytes on a channel given by its number, or refusal 1. (A number, as 01's refusal 1 asks.)
#[tactic(auto, unfolding(refusal::specs::Refusal::first, base_types::specs::Channel::named_by))]
pub fn frame_checksum(channel: u8, bytes: &[u8]) -> Result<u32, NotAChannel>
    ensures { FrameChecksumSays channel bytes.now result }
{
    let named = Channel::try_from(channel)?;
    Ok(frame_checksum_on(named, bytes))
}
