// What 01 says of the settings sheet. `specs/` states the claims, `proofs/` proves them, and this file has their witnesses: short functions
// over `settings`, proved from its contracts alone.
#![tactic(auto)]

ghost use Rattle.settings_claims.specs.Sheet.{FieldTold};

use settings::{Mark, Settings};

// The field that is told of a sheet: the first out of its range, or 0, exactly where all are in range. (0 and no `None`: `FieldTold` is of what 01
// tells.)
#[tactic(auto, using(crate::proofs::Sheet::sheets))]
pub fn field_told(settings: Settings) -> u8
    ensures { FieldTold settings result }
{
    settings.first_out_of_range().unwrap_or(0)
}

// The field that is told of the sheet with another mark. It is that of the sheet itself: a mark has no range. (0 for none, as above.)
#[tactic(auto, using(crate::proofs::Sheet::sheets))]
pub fn field_told_under(settings: Settings, mark: Mark) -> u8
    ensures { FieldTold settings result }
{
    let marked = Settings { mark, ..settings };
    marked.first_out_of_range().unwrap_or(0)
}
