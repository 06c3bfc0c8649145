// What follows from the rules of the wire's bits. `specs/` states the claims, `proofs/` proves them, and this file has their
// witnesses: short functions over the entry, proved from its contract alone.
#![tactic(auto)]

ghost use Rattle.std.specs.Prelude.{◌≡◌, true, ◌↔◌};
ghost use Rattle.wire_claims.specs.Answers.{AsReadAnswers, NumberTold};
ghost use Rattle.wire_claims.specs.Streams.{EncodedBits, Encodable, ToldApart};

use refusal::Answer;
use wire::Encoding;

// The number that encoding gives: the first of its order whose condition holds. With any but 0 the output is as it was.
// (A number: what is claimed here is of the number and the output.)
pub fn encode_number(channel: u8, bytes: &[u8], start: u8, output: &mut [u8]) -> u8
    ensures { NumberTold channel bytes.now start output.old output.new result }
{
    wire::encode(channel, bytes, start, output).number()
}

// The answer: where reading refuses the bytes, with reading's own refusal.
pub fn answered(channel: u8, bytes: &[u8], start: u8, output: &mut [u8]) -> Encoding
    ensures { AsReadAnswers channel bytes.now result }
{
    wire::encode(channel, bytes, start, output)
}

// Encodes with output of the size that the crate names, and answers the number, of which the claim speaks. It is never 25.
pub fn number_with_room(channel: u8, bytes: &[u8], start: u8) -> u8
    ensures { result ≡ 25 → ⊥ }
{
    let mut output = [0u8; wire::MOST_PACKED];
    wire::encode(channel, bytes, start, &mut output).number()
}

// Encodes a frame and answers the number of bits; 0 where nothing was encoded. (A number: the claim is of how many bits lie there.)
pub fn encoded(channel: u8, bytes: &[u8], start: u8, output: &mut [u8]) -> usize
    ensures { EncodedBits channel bytes.now start output.old output.new result }
{
    wire::encode(channel, bytes, start, output).unwrap_or(0)
}

// Whether both frames, each on its channel and with its start length, are encoded. Then their bits tell them apart.
pub fn both_encoded(
    first_channel: u8,
    x: &[u8],
    s: u8,
    first: &mut [u8],
    second_channel: u8,
    y: &[u8],
    t: u8,
    second: &mut [u8],
) -> bool
    ensures variant { (result ≡ true) ↔ (Encodable first_channel x.now s first.old × Encodable second_channel y.now t second.old) }
    ensures told_apart { result ≡ true → ToldApart s x.now first.new t y.now second.new }
{
    let first_bits = encoded(first_channel, x, s, first);
    let second_bits = encoded(second_channel, y, t, second);
    (first_bits != 0) & (second_bits != 0)
}
