// Prints checksums of messages whose checksums are known from elsewhere. What it must print stands in `stdout`: the check
// values of the public catalogue of checksums (CRC-24/FLEXRAY-A and -B of the nine ASCII digits 1 to 9), document 01's
// header, and frames whose trailers were worked out apart from this code.
#![tactic(auto)]

use refusal::Answer;
use std::io;

// On A, on B, and on numbers that name no channel.
const CHANNELS: [u8; 4] = [0, 1, 2, 255];

// `frame CHANNEL NUMBER VALUE`, for each channel
fn frames(to: &impl Print, bytes: &[u8]) -> io::Result<()> {
    for channel in CHANNELS {
        let answer = checksum::frame_checksum(channel, bytes);
        let number = answer.number();
        let value = answer.unwrap_or(0);
        println!(to; "frame {channel} {number} {value:06x}")?;
    }
    Ok(())
}

// The 20 bits under a header's checksum: sync, startup, 11 of frame ID, 7 of payload length.
fn message(sync: bool, startup: bool, id: u16, words: u8) -> u64 {
    u64::from(sync) << 19
        | u64::from(startup) << 18
        | (u64::from(id) & 0x7FF) << 7
        | u64::from(words) & 0x7F
}

// `header SYNC STARTUP ID WORDS VALUE`
fn header(to: &impl Print, sync: bool, startup: bool, id: u16, words: u8) -> io::Result<()> {
    let value = checksum::header_checksum(message(sync, startup, id, words), 20);
    let sync = u8::from(sync);
    let startup = u8::from(startup);
    println!(to; "header {sync} {startup} {id} {words} {value:03x}")
}

fn main(rt: HostRuntime) -> io::Result<()> {
    frames(&rt, b"123456789")?;
    frames(&rt, b"")?;
    frames(&rt, b"\x20\x01\x01\xa7\xc0")?;
    frames(&rt, b"\x38\x03\x05\x57\x05\x01\x02\x03\x04")?;
    let mut longest = [0; 259];
    longest[..5].copy_from_slice(b"\x07\xff\xfe\x4d\x7f");
    frames(&rt, &longest)?;
    header(&rt, false, false, 1, 0)?;
    header(&rt, true, true, 1, 8)?;
    header(&rt, true, false, 2047, 127)?;
    header(&rt, false, false, 2047, 0)?;
    header(&rt, true, true, 3, 2)?;
    header(&rt, false, false, 100, 127)
}
