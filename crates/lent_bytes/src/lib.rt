// Bytes that are lent: numbers read from them, and bytes and numbers laid over them, most significant first.
//
// For the crates above: `number_in`, `put_number` and `put`. Each takes whatever comes; where there is no room, nothing is put.
#![tactic(auto)]

ghost use Rattle.std.specs.Prelude.{◌≡◌};
ghost use Rattle.lent_bytes.specs.Putting.{number_in, number_put, put_end, put_at};

// The most bytes of a number.
const MOST: usize = 8;

// The number that bytes make. Of more than eight the first eight make it.
#[tactic(auto, using(crate::proofs::NumberLaws::none_read, crate::proofs::NumberLaws::turn_number))]
pub fn number_in(bytes: &[u8]) -> u64
    ensures { result ≡ number_in bytes.now }
{
    let mut number = 0;
    let first = &bytes[..bytes.len().min(MOST)];
    for byte in first {
        number = number * 256 + u64::from(*byte);
    }
    number
}

// Puts the `count` low bytes of a number at the front of the output. More than eight, or more than there is room for, are not put.
#[tactic(auto, using(crate::proofs::NumberLaws::put_lem))]
pub fn put_number(output: &mut [u8], number: u64, count: usize)
    ensures { output.new ≡ number_put number count output.old }
{
    if MOST < count || output.len() < count {
        return;
    }
    let bytes = number.to_be_bytes();
    output[..count].copy_from_slice(&bytes[MOST - count..]);
}

// Puts bytes behind the first `at` of the output, and answers where they end. Where there is no room for all of them none is put, and
// they end where they would begin. (A place and no Option: `put_end` is of the place, for any place.)
#[tactic(auto, using(crate::proofs::PuttingLaws::copied_at))]
pub fn put(output: &mut [u8], at: usize, bytes: &[u8]) -> usize
    ensures value { result ≡ put_end at bytes.now output.old }
    ensures output_after { output.new ≡ put_at at bytes.now output.old }
{
    if output.len() < at || output.len() - at < bytes.len() {
        return at;
    }
    let end = at + bytes.len();
    output[at..end].copy_from_slice(bytes);
    end
}
