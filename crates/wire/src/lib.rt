// Frames as they go on the wire (document 02, C-11): the bits that are sent for a frame, packed into lent bytes.
//
// Entry: `encode` on a channel number, a frame's bytes, a start length and lent output. What the bits are stands in specs/Stream.antt.
#![tactic(auto)]

mod packing;

ghost use Rattle.std.specs.Prelude.{◌≡◌};
ghost use Rattle.wire.specs.declared.EncodeRefusal.TheVariants.{NotAFrame as EncodeRefusal-as-NotAFrame};
ghost use Rattle.wire.specs.Packing.{most_packed};
ghost use Rattle.wire.specs.Refusals.{not_a_start_length};
ghost use Rattle.wire.specs.Encode.{number_of, checksums_of, told, EncodeSays};

use checksum::ChecksumPair;
use frame::ReadRefusal;
use refusal::Refusal;

// What encoding answers: the number of bits, or why there are none.
pub type Encoding = Result<usize, EncodeRefusal>;

// Bytes that are not a frame come with reading's own refusal.
#[derive(Clone, Copy)]
pub enum EncodeRefusal {
    NotAFrame(ReadRefusal),
    NotAStartLength,
    OutputTooShort,
}

impl Refusal for EncodeRefusal {
    ghost number_of = { number_of };

    fn number(self) -> u8 {
        match self {
            EncodeRefusal::NotAFrame(refusal) => refusal.number(),
            EncodeRefusal::NotAStartLength => 24,
            EncodeRefusal::OutputTooShort => 25,
        }
    }
}

impl From<ReadRefusal> for EncodeRefusal {
    ghost from_gives = { λ refused refusal. refusal ≡ EncodeRefusal-as-NotAFrame refused };

    fn from(refused: ReadRefusal) -> EncodeRefusal {
        EncodeRefusal::NotAFrame(refused)
    }
}

impl EncodeRefusal {
    // The two checksums that reading tells of bytes that are not a frame, 0 for both with any other refusal (02, C-18).
    pub fn checksums(self) -> ChecksumPair
        ensures { result ≡ checksums_of self }
    {
        match self {
            EncodeRefusal::NotAFrame(refusal) => refusal.checksums(),
            _ => ChecksumPair::NONE,
        }
    }
}

// The two checksums that an answer tells: those of its refusal, and 0 for both where the bits are encoded.
pub fn checksums_told(answer: Encoding) -> ChecksumPair
    ensures { result ≡ (told answer).refusal.checksums }
{
    match answer {
        Ok(_) => ChecksumPair::NONE,
        Err(refusal) => refusal.checksums(),
    }
}

// "1 to 15 low bits".
const SHORTEST_START: u8 = 1;

const LONGEST_START: u8 = 15;

// The size of output that takes every stream.
pub const MOST_PACKED: usize = 330;

// The constant is its rule's (DECISIONS 108).
fn constants()
    ensures { MOST_PACKED ≡ most_packed }
{}

// Packs the bits of a frame into the front of the output, on a channel that is given by its number. The tests come in their order, all
// of them before the first byte is touched.
pub fn encode(channel: u8, bytes: &[u8], start: u8, output: &mut [u8]) -> Encoding
    ensures { EncodeSays channel bytes.now start output.old output.new result }
{
    frame::read(channel, bytes)?;
    // All of it is worked out before 24 is tried (DECISIONS 70): a build that tries 25 before 24 then differs in the order alone, and is
    // refused for it.
    let count = start as usize + 10 * bytes.len() + 3;
    let size = (count + 7) / 8;
    let is_wrong_start = is_not_a_start_length(start);
    if is_wrong_start {
        return Err(EncodeRefusal::NotAStartLength);
    }
    if output.len() < size {
        return Err(EncodeRefusal::OutputTooShort);
    }
    packing::pack(start, bytes, &mut output[0..size]);
    Ok(count)
}

// Refusal 24.
fn is_not_a_start_length(start: u8) -> bool
    ensures { result ≡ not_a_start_length start }
{
    !(SHORTEST_START..=LONGEST_START).contains(&start)
}
