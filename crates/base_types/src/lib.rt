// The types that 01 keeps apart (document 01, "Frame layout"): a channel, a slot or frame ID, a cycle, a time in microticks and a signed
// number of them. Each holds any number of its size; beside it stands the condition that refuses what 01 does not take.
//
// For the crates above: `Channel` with what a number names, `Slot`, `Cycle`, `Microtick` and `SignedMicrotick`.
#![tactic(auto)]

mod channel;
mod cycle;
mod id;
mod microtick;

pub use channel::{Channel, NotAChannel};
pub use cycle::Cycle;
pub use id::Slot;
pub use microtick::{Microtick, SignedMicrotick};
