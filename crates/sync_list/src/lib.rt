// The measurements of one cycle, by ID (document 01, "Clock"; the layout is ours). A row for each ID, with what was measured on A
// and on B: then the number of rows is the number of different IDs, and "once per channel" cannot be broken.
//
// For the clock: `SyncList` with `empty`, `has`, `is_full_for` and `with`. For a walk over a list: its rows are `listed`, and `row_of` finds
// that of an ID. Each takes any list, also one whose count is above its rows. Soundness is in `list_soundness`, and the values of a list in
// `list_values`.
#![tactic(auto)]

mod list;
mod row;

pub use list::{ROWS, SyncList};
pub use row::{Measurement, Row};
