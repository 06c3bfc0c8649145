// One slot on one channel (document 01, "Judging a slot"): what is known of it, when that is sound, and the tests by which a frame is
// judged in it.
//
// Entry: `open_slot` on settings, a channel number, a slot and a cycle. It takes whatever comes and gives an answer and a status. For
// the crates above: `is_sound`, by which a status that a host hands in is refused, `first_miss`, which gives the first test that
// a frame misses, if any, `Status::none`, which is all zeros, and `is_static`.
//
// Where more than a few flags are joined, it is by `&` and `|`: the prover stops at a limit where they are joined by `&&` and `||`.
#![tactic(auto)]

mod content;
mod opening;
mod sound;
mod status;

pub use content::{first_miss, is_static};
pub use opening::{OpenRefusal, Opened, field_told, open_slot};
pub use sound::is_sound;
pub use status::{Miss, Reason, Status};
