// The state of a node's clock (document 01, "Clock"): settings loaded into it, cycles opened on it. Measuring and closing are crates
// of their own.
//
// Entries: `load` on settings, `open_cycle` on a clock state and a cycle. Each takes whatever comes and gives an answer and a clock
// state. For hosts: `Clock::none`, which is all zeros, and `is_sound`. For the crates above: `is_sound` too, by which a state that a
// host hands in is refused, `current_cycle`, `list_of` and `with_list`, by which its measurements are read and replaced.
#![tactic(auto)]

mod loading;
mod opening;
mod sound;
mod state;

pub use loading::{field_told, load};
pub use opening::{CycleRefusal, open_cycle};
pub use sound::is_sound;
pub use state::Clock;
