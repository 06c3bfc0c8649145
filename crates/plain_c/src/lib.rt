// Reading and the frame checksum for a host program in C (document 02, C-18): what `frame::read` and `checksum::frame_checksum` tell, as plain
// numbers. c/hridvanolt.h declares them for C, where a byte range is a pointer and a size.
//
// Entries: `hridvanolt_read` and `hridvanolt_frame_checksum`, each on a channel number and bytes.
#![tactic(auto)]

ghost use Rattle.plain_c.specs.Plain.{PlainReadSays, PlainChecksumSays};

use header::Header;
use refusal::Answer;

// What reading tells: the refusal number or 0, the nine fields, all 0 with a refusal, and the checksum found and the one expected, both 0 but
// with refusals 4 and 8. (Numbers, as C takes them.)
#[repr(C)]
#[derive(Clone, Copy)]
pub struct PlainReading {
    pub number: u8,
    pub reserved: bool,
    pub preamble: bool,
    // As the bit is sent: clear in a null frame.
    pub null_frame_bit: bool,
    pub sync: bool,
    pub startup: bool,
    pub id: u16,
    pub words: u8,
    pub checksum: u16,
    pub cycle: u8,
    pub found: u32,
    pub expected: u32,
}

// What the frame checksum's entry tells: the refusal number or 0, and the checksum, 0 with a refusal.
#[repr(C)]
#[derive(Clone, Copy)]
pub struct PlainChecksum {
    pub number: u8,
    pub value: u32,
}

// Reads a frame on a channel that is given by its number. The payload is the caller's own bytes 5 up to size minus 3.
#[unsafe(no_mangle)]
pub extern "C" fn hridvanolt_read(channel: u8, bytes: &[u8]) -> PlainReading
    ensures { PlainReadSays channel bytes.now result }
{
    let reading = frame::read(channel, bytes);
    let header = reading.unwrap_or(Header::NONE);
    let checksums = frame::checksums_told(reading);
    PlainReading {
        number: reading.number(),
        reserved: header.reserved,
        preamble: header.preamble,
        null_frame_bit: header.null_frame_bit,
        sync: header.sync,
        startup: header.startup,
        id: header.id.0,
        words: header.words,
        checksum: header.checksum,
        cycle: header.cycle.0,
        found: checksums.found,
        expected: checksums.expected,
    }
}

// The frame checksum of any bytes on a channel that is given by its number.
#[unsafe(no_mangle)]
pub extern "C" fn hridvanolt_frame_checksum(channel: u8, bytes: &[u8]) -> PlainChecksum
    ensures { PlainChecksumSays channel bytes.now result }
{
    let checksum = checksum::frame_checksum(channel, bytes);
    PlainChecksum {
        number: checksum.number(),
        value: checksum.unwrap_or(0),
    }
}
