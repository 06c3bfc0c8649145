// The header of a frame (document 01, "Frame layout"): its fields, the 40 bits that they take, and what they are tested by.
//
// For the crates above: `Header` with its `checksum_due`, `Fields`, of which a header is written, `unpacked`, `packed`, `checksum_of` and
// `checksums_of` for the 40 bits as those of a number, and the condition `startup_without_sync`.
#![tactic(auto)]

ghost use Rattle.std.specs.Prelude.{◌≡◌, ◌<◌, ◌^◌};
ghost use Rattle.division.specs.Bits.{bits};
ghost use Rattle.header.specs.Layout.{most_words, most_payload, longest_frame, whole_header, header_checksum_of, header_checksums, header_in, no_header};
ghost use Rattle.header.specs.Refusals.{startup_without_sync};

use base_types::{Cycle, Slot};
use checksum::ChecksumPair;

// What a header says: 01's nine fields, in the order in which they are sent.
#[derive(Clone, Copy)]
pub struct Header {
    pub reserved: bool,
    pub preamble: bool,
    // As the bit is sent: clear in a null frame.
    pub null_frame_bit: bool,
    pub sync: bool,
    pub startup: bool,
    pub id: Slot,
    pub words: u8,
    pub checksum: u16,
    pub cycle: Cycle,
}

// The seven fields that are free when a frame is written. The others follow: words from the payload, the checksum from the rest.
// (They are not a part of `Header`: there 01's nine fields stand in the order in which they are sent.)
#[derive(Clone, Copy)]
pub struct Fields {
    pub reserved: bool,
    pub preamble: bool,
    // As the bit is sent: clear in a null frame.
    pub null_frame_bit: bool,
    pub sync: bool,
    pub startup: bool,
    pub id: Slot,
    pub cycle: Cycle,
}

impl Header {
    // The highest payload length, in words.
    pub const MOST_WORDS: u8 = 127;

    // The longest payload, in bytes, and the longest frame.
    pub const MOST_PAYLOAD: usize = 2 * Header::MOST_WORDS as usize;

    pub const LONGEST_FRAME: usize = 8 + Header::MOST_PAYLOAD;

    // All zeros, all flags clear: what stands beside a refusal.
    pub const NONE: Header = Header {
        reserved: false,
        preamble: false,
        null_frame_bit: false,
        sync: false,
        startup: false,
        id: Slot(0),
        words: 0,
        checksum: 0,
        cycle: Cycle(0),
    };

    // The constants are their rules' (DECISIONS 108).
    fn constants()
        ensures most_words { Header.MOST_WORDS ≡ most_words }
        ensures most_payload { Header.MOST_PAYLOAD ≡ most_payload }
        ensures longest_frame { Header.LONGEST_FRAME ≡ longest_frame }
        ensures none { Header.NONE ≡ no_header }
    {}

    // The header checksum that belongs to the other fields, whatever stands in its own.
    #[tactic(auto, using(crate::proofs::HeaderLaws::checksum_whole))]
    pub fn checksum_due(self) -> u16
        ensures { result ≡ header_checksum_of self }
    {
        checksum_of(packed(self))
    }
}

// Refusal 7.
pub fn startup_without_sync(startup: bool, sync: bool) -> bool
    ensures { result ≡ startup_without_sync startup sync }
{
    startup && !sync
}

// The fields in the 40 bits of a header, which are those of a number.
#[tactic(auto, using(crate::proofs::HeaderLaws::unpacked_header))]
pub fn unpacked(number: u64) -> Header
    ensures { result ≡ header_in (bits 40 number) }
{
    Header {
        reserved: (number >> 39) % 2 == 1,
        preamble: (number >> 38) % 2 == 1,
        null_frame_bit: (number >> 37) % 2 == 1,
        sync: (number >> 36) % 2 == 1,
        startup: (number >> 35) % 2 == 1,
        id: Slot(((number >> 24) % 2048) as u16),
        words: ((number >> 17) % 128) as u8,
        checksum: ((number >> 6) % 2048) as u16,
        cycle: Cycle((number % 64) as u8),
    }
}

// The header's 40 bits, as those of a number that has no more.
pub fn packed(header: Header) -> u64
    ensures result_value { bits 40 result ≡ whole_header header }
    ensures upper_bound { result < 2 ^ 40 }
{
    let sent = u64::from(header.reserved) * 2 + u64::from(header.preamble);
    let sent = sent * 2 + u64::from(header.null_frame_bit);
    let sent = sent * 2 + u64::from(header.sync);
    let sent = sent * 2 + u64::from(header.startup);
    let sent = sent * 2048 + header.id.0 as u64 % 2048;
    let sent = sent * 128 + header.words as u64 % 128;
    let sent = sent * 2048 + header.checksum as u64 % 2048;
    sent * 64 + header.cycle.0 as u64 % 64
}

// The header checksum of a header that is given by its 40 bits: over the 20 from sync to payload length, and not over its own
// 11 bits or the cycle's 6.
#[tactic(auto, using(crate::proofs::HeaderLaws::covered_bits), unfolding(crate::specs::Layout::header_in))]
pub fn checksum_of(number: u64) -> u16
    ensures { result ≡ header_checksum_of (header_in (bits 40 number)) }
{
    checksum::header_checksum(number >> 17, 20)
}

// The header checksum found in these 40 bits, and the one that belongs to the others.
pub fn checksums_of(number: u64) -> ChecksumPair
    ensures { result ≡ header_checksums (header_in (bits 40 number)) }
{
    let header = unpacked(number);
    ChecksumPair {
        found: header.checksum as u32,
        expected: checksum_of(number) as u32,
    }
}
