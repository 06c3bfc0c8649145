// The stream packed into bytes, from its first bit on: ten bits are taken whenever there are too few for a byte.
ghost use Rattle.std.specs.Prelude.{◌≡◌, ◌<◌, ◌≤◌, length, get_or};
ghost use Rattle.header.specs.Layout.{longest_frame};
ghost use Rattle.wire.specs.Stream.{longest_start, stream};
ghost use Rattle.wire.specs.Packing.{packed, packed_size};
ghost use Rattle.wire.specs.Pending.{tens, Filled};

// "before each byte a high and a low bit", with eight places for the byte.
const BYTE_START: u32 = 0b10_0000_0000;

// "at the end a low and a high bit", with eight low ones behind them, of which the spare bits of the last byte are some.
const END: u32 = 0b01_0000_0000;

// Bits that have been taken and not been written yet. (A number and a count: they are bits, of which no slice is made.)
#[derive(Clone, Copy)]
struct Pending {
    // Their number: they are its low bits, the first one highest. What stands above them is not looked at.
    held: u32,
    // How many they are.
    count: usize,
    // How often ten bits have been taken.
    taken: usize,
}

// Fills the output, which has just the size for it, with the packed stream.
pub(crate) fn pack(start: u8, bytes: &[u8], output: &mut [u8])
    requires start_le_longest_start { (start ≤ longest_start) × (length bytes.now ≤ longest_frame) }
    requires output_len { length output.old ≡ packed_size (length (stream start bytes.now)) }
    ensures { output.new ≡ packed (stream start bytes.now) }
{
    // The start bits and the frame start bit behind them make the number 1.
    let mut pending = Pending {
        held: 1,
        count: start as usize + 1,
        taken: 0,
    };
    for slot in output.iter_mut() {
        pending = pending.filled(bytes);
        let rest = pending.count - 8;
        *slot = ((pending.held >> rest) % 256) as u8;
        pending.count = rest;
    }
}

impl Pending {
    // Takes ten bits where there are fewer than eight: behind these, which are among the low eight of what is held.
    fn filled(self, bytes: &[u8]) -> Pending
        requires bytes_len_bound { (length bytes.now ≤ longest_frame) × (self.count ≤ 17) × (self.taken ≤ length (tens bytes.now)) }
        requires taken_in_bounds { self.count < 8 → self.taken ≤ length bytes.now }
        ensures { Filled self bytes.now result }
    {
        if 8 <= self.count {
            return self;
        }
        let next = ten(bytes, self.taken);
        Pending {
            held: self.held % 256 * 1024 + next,
            count: self.count + 10,
            taken: self.taken + 1,
        }
    }
}

// The ten bits of byte i with the two before it; behind the last byte those of the end.
fn ten(bytes: &[u8], i: usize) -> u32
    requires { i ≤ length bytes.now }
    ensures value { result ≡ get_or (tens bytes.now) i 0 }
    ensures upper_bound { result < 1024 }
{
    match bytes.get(i) {
        Some(byte) => BYTE_START + *byte as u32,
        None => END,
    }
}
