// The lines of the output, and what they show of the libraries' values.
use arrayvec::ArrayString;
use checksum::ChecksumPair;
use header::Header;
use std::fmt;
use std::fmt::{Display, Formatter, Write};

// Room for every line. The longest is that of a clock state whose numbers have as many digits as they can: 1,810 characters.
const ROOM: usize = 1900;

// Writes a line in one piece. A write that fails is left at that.
pub fn write(to: &impl Print, line: impl Display + Drop) {
    let mut text = ArrayString::<ROOM>::new();
    let _ = writeln!(text, "{line}");
    let _ = to.write_all(text.as_bytes());
}

// A value as a line shows it: its numbers, with a space between each and the next. What a value does not have shows as 0.
#[derive(Clone, Copy)]
pub struct Shown<T>(pub T);

// FOUND EXPECTED
impl Display for Shown<ChecksumPair> {
    fn fmt<W: fmt::Write>(&self, f: &mut Formatter<W>) -> fmt::Result {
        write!(f, "{} {}", self.0.found, self.0.expected)
    }
}

// RESERVED PREAMBLE NULL SYNC STARTUP ID WORDS CHECKSUM CYCLE
impl Display for Shown<Header> {
    fn fmt<W: fmt::Write>(&self, f: &mut Formatter<W>) -> fmt::Result {
        let header = self.0;
        for flag in flags_in(header) {
            write!(f, "{} ", u8::from(flag))?;
        }
        write!(
            f,
            "{} {} {} {}",
            header.id.0, header.words, header.checksum, header.cycle.0
        )
    }
}

// The five flags of a header, in the order in which they are sent.
pub fn flags_in(header: Header) -> [bool; 5] {
    [
        header.reserved,
        header.preamble,
        header.null_frame_bit,
        header.sync,
        header.startup,
    ]
}

// How many bytes are written at once: one by one, they would take most of a long line's time.
const PART: usize = 64;

// Bytes in lower-case hex, or `-` where there are none.
#[derive(Clone, Copy)]
pub struct Hex<'a>(pub &'a [u8]);

impl Display for Hex<'_> {
    fn fmt<W: fmt::Write>(&self, f: &mut Formatter<W>) -> fmt::Result {
        if self.0.is_empty() {
            return f.write_str("-");
        }
        let mut space = [0; 2 * PART];
        for part in self.0.chunks(PART) {
            let digits = space.get_mut(..2 * part.len()).ok_or(fmt::Error)?;
            hex::encode_to_slice(part, digits).map_err(|_| fmt::Error)?;
            f.write_str(str::from_utf8(digits).map_err(|_| fmt::Error)?)?;
        }
        Ok(())
    }
}
