// The arithmetic of clock correction (document 01, "Clock"): deviations, and the values and terms that are worked out of them.
//
// Everything here takes whatever comes. Sums are made wide and brought back to the signed type, which holds them as they are for
// every sound clock state and every accepted number, and holds 0 for what is too large for it.
#![tactic(auto)]

mod arrival;
mod external;
mod term;
mod value;

pub use arrival::deviation;
pub use external::{Control, NotAControl, with_external};
pub use term::{MOST_IDS, Term, Values, offset_term, rate_term};
pub use value::{Deviations, offset_value, rate_value};
