// Frames read from bytes (document 01, "Frame layout").
//
// Entries: `read` and `payload` on a channel number and bytes. For the crates above: `read_on` for a channel that is known to be one,
// and the two checksums that a refusal or an answer tells, `ReadRefusal::checksums` and `checksums_told`.
// What a header is stands in the crate `header`.
#![tactic(auto)]

ghost use Rattle.std.specs.Prelude.{◌≡◌, ◌≤◌, length};
ghost use Rattle.division.specs.Bits.{bits};
ghost use Rattle.header.specs.Layout.{header_in};
ghost use Rattle.frame.specs.declared.ReadRefusal.TheVariants.{NotAChannel as ReadRefusal-as-NotAChannel};
ghost use Rattle.frame.specs.Refusals.{bad_size, frame_checksums};
ghost use Rattle.frame.specs.Read.{header_read, trailer_read, number_of, checksums_of, told, ReadSays, ReadOnSays, PayloadSays, PayloadLies};

use base_types::{Channel, NotAChannel, Slot};
use checksum::ChecksumPair;
use header::Header;
use refusal::Refusal;

// What reading answers: the header, or what is wrong with the bytes.
pub type Reading = Result<Header, ReadRefusal>;

// A checksum that differs comes with the one that was expected.
#[derive(Clone, Copy)]
pub enum ReadRefusal {
    NotAChannel,
    TooShort,
    BadSize,
    HeaderChecksumDiffers(ChecksumPair),
    WordsNotSize,
    IdZero,
    StartupWithoutSync,
    FrameChecksumDiffers(ChecksumPair),
}

impl Refusal for ReadRefusal {
    ghost number_of = { number_of };

    fn number(self) -> u8 {
        match self {
            ReadRefusal::NotAChannel => 1,
            ReadRefusal::TooShort => 2,
            ReadRefusal::BadSize => 3,
            ReadRefusal::HeaderChecksumDiffers(_) => 4,
            ReadRefusal::WordsNotSize => 5,
            ReadRefusal::IdZero => 6,
            ReadRefusal::StartupWithoutSync => 7,
            ReadRefusal::FrameChecksumDiffers(_) => 8,
        }
    }
}

impl From<NotAChannel> for ReadRefusal {
    ghost from_gives = { λ _ refusal. refusal ≡ ReadRefusal-as-NotAChannel };

    fn from(_refusal: NotAChannel) -> ReadRefusal {
        ReadRefusal::NotAChannel
    }
}

impl ReadRefusal {
    // The checksum found in the bytes and the one worked out, 0 for both unless they differ (02, C-18).
    pub fn checksums(self) -> ChecksumPair
        ensures { result ≡ checksums_of self }
    {
        match self {
            ReadRefusal::HeaderChecksumDiffers(checksums)
            | ReadRefusal::FrameChecksumDiffers(checksums) => checksums,
            _ => ChecksumPair::NONE,
        }
    }
}

// The two checksums that an answer tells: none with a header.
pub fn checksums_told(reading: Reading) -> ChecksumPair
    ensures { result ≡ (told reading).checksums }
{
    match reading {
        Ok(_) => ChecksumPair::NONE,
        Err(refusal) => refusal.checksums(),
    }
}

// Reads a frame on a channel that is given by its number. (A number, as 01's refusal 1 asks.)
#[tactic(auto, unfolding(refusal::specs::Refusal::first, base_types::specs::Channel::named_by))]
pub fn read(channel: u8, bytes: &[u8]) -> Reading
    ensures { ReadSays channel bytes.now result }
{
    let named = Channel::try_from(channel)?;
    read_on(named, bytes)
}

// Refusal 3.
fn is_bad_size(bytes: &[u8]) -> bool
    ensures { result ≡ bad_size bytes.now }
{
    bytes.len() % 2 == 1 || Header::LONGEST_FRAME < bytes.len()
}

// The 40 bits of the header, as those of a number.
#[tactic(auto, using(crate::proofs::ReadLaws::header_of_sent))]
fn header_bits(bytes: &[u8]) -> u64
    requires { 8 ≤ length bytes.now }
    ensures { header_in (bits 40 result) ≡ header_read bytes.now }
{
    lent_bytes::number_in(&bytes[0..5])
}

// The frame checksum in the trailer, and that of all that stands before it.
#[tactic(auto, using(crate::proofs::ReadLaws::trailer_is))]
fn frame_checksums(channel: Channel, bytes: &[u8]) -> ChecksumPair
    requires { 8 ≤ length bytes.now }
    ensures { result ≡ frame_checksums channel bytes.now (trailer_read bytes.now) }
{
    let end = bytes.len() - 3;
    ChecksumPair {
        found: lent_bytes::number_in(&bytes[end..]) as u32,
        expected: checksum::frame_checksum_on(channel, &bytes[0..end]),
    }
}

// Reads a frame on a channel. The tests come in 01's order: which refusal is given is part of the answer.
#[tactic(auto, unfolding(refusal::specs::Refusal::first))]
pub fn read_on(channel: Channel, bytes: &[u8]) -> Reading
    ensures { ReadOnSays channel bytes.now result }
{
    if bytes.len() < 8 {
        return Err(ReadRefusal::TooShort);
    }
    if is_bad_size(bytes) {
        return Err(ReadRefusal::BadSize);
    }
    let sent = header_bits(bytes);
    let header = header::unpacked(sent);
    let checksums = header::checksums_of(sent);
    if checksums.differ() {
        return Err(ReadRefusal::HeaderChecksumDiffers(checksums));
    }
    if 8 + 2 * usize::from(header.words) != bytes.len() {
        return Err(ReadRefusal::WordsNotSize);
    }
    if header.id == Slot(0) {
        return Err(ReadRefusal::IdZero);
    }
    if header::startup_without_sync(header.startup, header.sync) {
        return Err(ReadRefusal::StartupWithoutSync);
    }
    let checksums = frame_checksums(channel, bytes);
    if checksums.differ() {
        return Err(ReadRefusal::FrameChecksumDiffers(checksums));
    }
    Ok(header)
}

// The payload of a frame: the caller's own bytes from 5 up to size minus 3. An empty part where the frame is refused.
#[tactic(auto, using(crate::proofs::ReadLaws::accepted_long, crate::proofs::ReadLaws::payload_from_5))]
pub fn payload(channel: u8, bytes: &[u8]) -> &[u8]
    ensures payload_says { PayloadSays channel bytes.now result.now }
    ensures payload_lies { PayloadLies channel bytes.now bytes.entry.ref_ptr result.ref_ptr }
{
    if read(channel, bytes).is_err() {
        return &bytes[0..0];
    }
    &bytes[5..bytes.len() - 3]
}
