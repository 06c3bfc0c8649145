// Flags as the bits of a byte, the first the lowest.

const WEIGHTS: [u8; 8] = [1, 2, 4, 8, 16, 32, 64, 128];

pub fn flags_of(byte: u8) -> [bool; 8] {
    WEIGHTS.map(|weight| byte & weight != 0)
}

// The byte of at most eight flags. A bit that has no flag is 0.
pub fn byte_of(flags: &[bool]) -> u8 {
    let mut byte = 0;
    for (flag, weight) in flags.iter().zip(&WEIGHTS) {
        if *flag {
            byte |= *weight;
        }
    }
    byte
}
