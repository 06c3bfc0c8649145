// What follows from the frame's rules. `specs/` states the claims, `proofs/` proves them, and this file has their witnesses:
// short functions over the entries, proved from their contracts alone.
#![tactic(auto)]

ghost use Rattle.std.specs.Prelude.{◌≡◌, false};
ghost use Rattle.refusal.specs.Refusal.{InOrder};
ghost use Rattle.refusal.specs.Answer.{number_in};
ghost use Rattle.frame.specs.Read.{told, refusals as read_refusals};
ghost use Rattle.writing.specs.Write.{told as write_told, refusals as write_refusals};
ghost use Rattle.frame_claims.specs.Answers.{ToldWith};
ghost use Rattle.frame_claims.specs.Damage.{BothAccepted};
ghost use Rattle.frame_claims.specs.declared.RewriteRefusal.TheVariants.{NotRead, NotWritten};
ghost use Rattle.frame_claims.specs.Rewriting.{number_of};
ghost use Rattle.frame_claims.specs.Exact.{fields_of, AcceptsFrames, ReadingOf, PayloadOf, Wrote, Rewritten, Sent, Reread, RereadPayload};

use frame::{ReadRefusal, Reading};
use header::{Fields, Header};
use refusal::{Answer, Refusal};
use writing::{WriteRefusal, Writing};

// The number that reading gives: the first of 01's order whose condition holds.
// (A number: what is claimed here is of the number alone.)
pub fn read_number(channel: u8, bytes: &[u8]) -> u8
    ensures { InOrder (read_refusals channel bytes.now) result }
{
    frame::read(channel, bytes).number()
}

// What is read: with 4 and 8 two checksums that differ, and 0 for both with any other number.
#[tactic(auto, using(crate::proofs::Checksums::checksums_told))]
pub fn checksums_told(channel: u8, bytes: &[u8]) -> Reading
    ensures { ToldWith (told result).number (told result).checksums }
{
    frame::read(channel, bytes)
}

// The number that writing gives: the first of 01's order whose condition holds. With any but 0 the output is as it was.
// (A number: what is claimed here is of the number and the output.)
pub fn write_number(channel: u8, fields: Fields, payload: &[u8], output: &mut [u8]) -> u8
    ensures in_order { InOrder (write_refusals channel fields payload.now output.old) result }
    ensures output_unchanged { (result ≡ 0 → ⊥) → output.new ≡ output.old }
{
    writing::write(channel, fields, payload, output).number()
}

// Whether reading accepts: exactly where the bytes are a frame.
#[tactic(auto, using(crate::proofs::Witnesses::accepts_frames))]
pub fn accepts(channel: u8, bytes: &[u8]) -> bool
    ensures { AcceptsFrames channel bytes.now result }
{
    frame::read(channel, bytes).is_ok()
}

// What is read: exactly the header of a frame. (The body is that of `checksums_told`, since a witness shows one claim.)
pub fn reading_of(channel: u8, bytes: &[u8]) -> Reading
    ensures { ReadingOf channel bytes.now result }
{
    frame::read(channel, bytes)
}

// The payload of a frame, and of any other bytes an empty part.
#[tactic(auto, using(crate::proofs::Witnesses::of_frames))]
pub fn payload_of(channel: u8, bytes: &[u8]) -> &[u8]
    ensures { PayloadOf channel bytes.now result.now }
{
    frame::payload(channel, bytes)
}

// Whether these bytes are accepted on both channels. They never are.
pub fn on_both(bytes: &[u8]) -> bool
    ensures { result ≡ false }
{
    accepts(0, bytes) && accepts(1, bytes)
}

// Whether both strings are accepted on one channel: then, if they are of equal length and different, they are far apart.
pub fn both_accepted(channel: u8, x: &[u8], y: &[u8]) -> bool
    ensures { BothAccepted channel x.now y.now result }
{
    accepts(channel, x) && accepts(channel, y)
}

// The fields of a header that are free when it is written.
fn fields_of(header: Header) -> Fields
    ensures { result ≡ fields_of header }
{
    Fields {
        reserved: header.reserved,
        preamble: header.preamble,
        null_frame_bit: header.null_frame_bit,
        sync: header.sync,
        startup: header.startup,
        id: header.id,
        cycle: header.cycle,
    }
}

// Writes a frame, the only one with these fields and this payload.
pub fn written(channel: u8, fields: Fields, payload: &[u8], output: &mut [u8]) -> Writing
    ensures { Wrote channel fields payload.now output.old output.new (write_told result).length }
{
    writing::write(channel, fields, payload, output)
}

// Why bytes that were read were not written again.
#[derive(Clone, Copy)]
pub enum RewriteRefusal {
    NotRead(ReadRefusal),
    NotWritten(WriteRefusal),
}

impl Refusal for RewriteRefusal {
    ghost number_of = { number_of };

    fn number(self) -> u8 {
        match self {
            RewriteRefusal::NotRead(refusal) => refusal.number(),
            RewriteRefusal::NotWritten(refusal) => refusal.number(),
        }
    }
}

impl From<ReadRefusal> for RewriteRefusal {
    ghost from_gives = { λ refusal given. given ≡ NotRead refusal };

    fn from(refusal: ReadRefusal) -> RewriteRefusal {
        RewriteRefusal::NotRead(refusal)
    }
}

impl From<WriteRefusal> for RewriteRefusal {
    ghost from_gives = { λ refusal given. given ≡ NotWritten refusal };

    fn from(refusal: WriteRefusal) -> RewriteRefusal {
        RewriteRefusal::NotWritten(refusal)
    }
}

// Reads bytes and writes what was read: the same bytes, unless the reserved bit is 1, a null frame is not empty, or there is no room. The
// refusal is reading's where it refuses, and else writing's.
pub fn rewritten(channel: u8, bytes: &[u8], output: &mut [u8]) -> Result<(), RewriteRefusal>
    ensures { Rewritten channel bytes.now output.old output.new (number_in number_of result) }
{
    let header = frame::read(channel, bytes)?;
    let part = frame::payload(channel, bytes);
    writing::write(channel, fields_of(header), part, output)?;
    Ok(())
}

// Writes a frame and gives what was written.
fn sent<'a>(channel: u8, fields: Fields, payload: &'a [u8], output: &'a mut [u8]) -> &'a [u8]
    ensures { Sent channel fields payload.now output.old result.now }
{
    let size = writing::write(channel, fields, payload, output).unwrap_or(0);
    &output[0..size]
}

// Writes a frame and reads it: the same fields.
pub fn reread<'a>(channel: u8, fields: Fields, payload: &'a [u8], output: &'a mut [u8]) -> Reading
    ensures { Reread channel fields payload.now output.old result }
{
    frame::read(channel, sent(channel, fields, payload, output))
}

// Writes a frame and takes its payload: the same bytes.
pub fn reread_payload<'a>(
    channel: u8,
    fields: Fields,
    payload: &'a [u8],
    output: &'a mut [u8],
) -> &'a [u8]
    ensures { RereadPayload channel fields payload.now output.old result.now }
{
    frame::payload(channel, sent(channel, fields, payload, output))
}
