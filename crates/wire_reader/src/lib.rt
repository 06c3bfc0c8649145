// Frames read from samples of the wire (document 02, C-13; 002, sections 3.2.2 to 3.2.7).
//
// Entries: `open_reader` on a channel number, `listen` on a reader, samples and lent memory. Each takes whatever comes and gives an answer
// and a reader. For the crates above: `Reader` with `fresh`, `none`, which is all zeros, and `is_sound`, by which a reader that a host hands in
// is refused; `Event`, which is what a sample tells. Voting and the bit clock stand in the crate `bit_clock`, the rule of reading in `frame`.
//
// A host opens a reader for each wire, and lends it the same memory with each call. It hands in what its recorder delivered, and, as long as a
// call tells something, the samples that were not taken; the reader that comes back is handed in with the next call.
//
// Flags are joined by `&` and `|`: of a chain of `&&` the search stops at a limit, and a sample has no branch by them.
#![tactic(auto)]

mod decoder;
mod event;
mod listening;
mod opening;
mod phase;
mod reader;

pub use event::{Event, Heard, WireError, checksums_told, number_told};
pub use listening::{ListenRefusal, Listened, Listening, listen};
pub use opening::open_reader;
pub use phase::Phase;
pub use reader::Reader;
