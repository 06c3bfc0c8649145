// Frames written into lent bytes (document 01, "Frame layout").
//
// Entry: `write` on a channel number, fields, payload and lent output. What a header is stands in the crate `header`.
#![tactic(auto)]

ghost use Rattle.std.specs.Prelude.{◌≡◌, ◌+◌, ◌≤◌, length};
ghost use Rattle.header.specs.Layout.{most_payload};
ghost use Rattle.writing.specs.Refusals.{bad_payload, null_frame_not_empty};
ghost use Rattle.lent_bytes.specs.Over.{over};
ghost use Rattle.writing.specs.declared.WriteRefusal.TheVariants.{NotAChannel as WriteRefusal-as-NotAChannel};
ghost use Rattle.writing.specs.Write.{number_of, header_of, frame_bytes, WriteSays};
ghost use Rattle.division.specs.Bits.{bits, bytes_of};

use base_types::{Channel, NotAChannel};
use header::{Fields, Header};
use refusal::Refusal;

// What writing answers: the frame's size, or why no frame was written.
pub type Writing = Result<usize, WriteRefusal>;

#[derive(Clone, Copy)]
pub enum WriteRefusal {
    NotAChannel,
    NotAnId,
    BadPayload,
    CycleTooHigh,
    StartupWithoutSync,
    ReservedSet,
    NullFrameNotEmpty,
    OutputTooShort,
}

impl Refusal for WriteRefusal {
    ghost number_of = { number_of };

    fn number(self) -> u8 {
        match self {
            WriteRefusal::NotAChannel => 1,
            WriteRefusal::NotAnId => 9,
            WriteRefusal::BadPayload => 10,
            WriteRefusal::CycleTooHigh => 11,
            WriteRefusal::StartupWithoutSync => 7,
            WriteRefusal::ReservedSet => 12,
            WriteRefusal::NullFrameNotEmpty => 26,
            WriteRefusal::OutputTooShort => 13,
        }
    }
}

impl From<NotAChannel> for WriteRefusal {
    ghost from_gives = { λ _ refusal. refusal ≡ WriteRefusal-as-NotAChannel };

    fn from(_refusal: NotAChannel) -> WriteRefusal {
        WriteRefusal::NotAChannel
    }
}

// Writes a frame at the front of the output, on a channel that is given by its number. (A number, as 01's refusal 1 asks.) The tests come in 01's order, all of
// them before the first byte is touched.
#[tactic(auto, using(crate::proofs::WriteLaws::payload_at_most), unfolding(refusal::specs::Refusal::first, base_types::specs::Channel::named_by))]
pub fn write(channel: u8, fields: Fields, payload: &[u8], output: &mut [u8]) -> Writing
    ensures { WriteSays channel fields payload.now output.old output.new result }
{
    let named = Channel::try_from(channel)?;
    if fields.id.is_not_an_id() {
        return Err(WriteRefusal::NotAnId);
    }
    if is_bad(payload) {
        return Err(WriteRefusal::BadPayload);
    }
    if fields.cycle.is_too_high() {
        return Err(WriteRefusal::CycleTooHigh);
    }
    if header::startup_without_sync(fields.startup, fields.sync) {
        return Err(WriteRefusal::StartupWithoutSync);
    }
    if fields.reserved {
        return Err(WriteRefusal::ReservedSet);
    }
    if null_frame_not_empty(fields.null_frame_bit, payload) {
        return Err(WriteRefusal::NullFrameNotEmpty);
    }
    let size = 8 + payload.len();
    if output.len() < size {
        return Err(WriteRefusal::OutputTooShort);
    }
    lay(named, fields, payload, output);
    Ok(size)
}

// Refusal 10.
fn is_bad(payload: &[u8]) -> bool
    ensures { result ≡ bad_payload payload.now }
{
    payload.len() % 2 == 1 || Header::MOST_PAYLOAD < payload.len()
}

// Refusal 26 (document 02, C-16). In a null frame the bit is clear; of any other frame the payload is not looked at.
fn null_frame_not_empty(null_frame_bit: bool, payload: &[u8]) -> bool
    ensures { result ≡ null_frame_not_empty null_frame_bit payload.now }
{
    !null_frame_bit && payload.iter().any(|byte| *byte != 0)
}

// The header with these fields, before a payload of this many words.
fn header_of(fields: Fields, words: u8) -> Header
    ensures { result ≡ header_of fields words }
{
    let header = Header {
        reserved: fields.reserved,
        preamble: fields.preamble,
        null_frame_bit: fields.null_frame_bit,
        sync: fields.sync,
        startup: fields.startup,
        id: fields.id,
        words,
        checksum: 0,
        cycle: fields.cycle,
    };
    Header {
        checksum: header.checksum_due(),
        ..header
    }
}

// Lays a frame over the front of the output: the header, the payload into the middle, and the trailer behind it.
fn lay(channel: Channel, fields: Fields, payload: &[u8], output: &mut [u8])
    requires { (length payload.now ≤ most_payload) × (8 + length payload.now ≤ length output.old) }
    ensures { output.new ≡ over (frame_bytes channel fields payload.now) output.old }
{
    let words = (payload.len() / 2) as u8;
    lent_bytes::put_number(output, header::packed(header_of(fields, words)), 5);
    let end = 5 + payload.len();
    output[5..end].copy_from_slice(payload);
    let checksum = checksum::frame_checksum_on(channel, &output[0..end]);
    put_trailer(&mut output[end..], checksum);
}

// Puts the frame checksum's three bytes at the front of what is lent.
fn put_trailer(output: &mut [u8], checksum: u32)
    requires { 3 ≤ length output.old }
    ensures { output.new ≡ over (bytes_of 3 (bits 24 checksum)) output.old }
{
    lent_bytes::put_number(output, u64::from(checksum), 3);
}
