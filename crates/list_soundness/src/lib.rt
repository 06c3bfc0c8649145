// Soundness of a list (document 01, "Refusal numbers"): a host may hand in any.
//
// For the clock: `is_sound`.
#![tactic(auto)]

ghost use Rattle.std.specs.Prelude.{◌≡◌, eqb};
ghost use Rattle.std.specs.List.{list_any};
ghost use Rattle.sync_list.specs.Lists.{ids_of, none_twice};
ghost use Rattle.list_soundness.specs.Sound.{is_in_range, row_sound, rows_sound, carries, row_marked, all_marked, list_sound};

use base_types::Slot;
use settings::Mark;
use sync_list::{Measurement, Row, SyncList};

// Whether it holds at most the limit of rows, each one right and with the mark, and no ID twice.
pub fn is_sound(list: &SyncList, limit: u32, mark: Mark) -> bool
    ensures { result ≡ list_sound limit mark list.now }
{
    let rows = list.listed();
    list.count <= limit as usize && rows_sound(rows) && none_twice(rows) && all_marked(rows, mark)
}

// Whether each row is sound.
#[tactic(auto, unfolding(crate::specs::Sound::each_row))]
fn rows_sound(rows: &[Row]) -> bool
    ensures { result ≡ rows_sound rows.now }
{
    rows.iter().all(|row| row_sound(*row))
}

// Whether each row carries the mark.
#[tactic(auto, unfolding(crate::specs::Sound::each_row))]
fn all_marked(rows: &[Row], mark: Mark) -> bool
    ensures { result ≡ all_marked mark rows.now }
{
    rows.iter().all(|row| row_marked(*row, mark))
}

// Whether no ID stands twice. An ID above all earlier ones is not among them, so only another is looked for; rows whose IDs rise need no
// search.
fn none_twice(rows: &[Row]) -> bool
    ensures { result ≡ none_twice (ids_of rows.now) }
{
    let mut highest: u16 = 0;
    for (i, row) in rows.iter().enumerate() {
        if row.id.0 <= highest && is_among(row.id, &rows[..i]) {
            return false;
        }
        highest = highest.max(row.id.0);
    }
    true
}

// Whether one of the rows is that of an ID.
fn is_among(id: Slot, rows: &[Row]) -> bool
    ensures { result ≡ list_any (λ row. eqb row.id.0 id.0) rows.now }
{
    rows.iter().any(|row| row.id == id)
}

// Whether a row has an ID of a frame, at least one measurement, and deviations in their range.
fn row_sound(row: Row) -> bool
    ensures { result ≡ row_sound row }
{
    !row.id.is_not_an_id()
        && (row.on_a.is_some() || row.on_b.is_some())
        && is_in_range(row.on_a)
        && is_in_range(row.on_b)
}

// Whether the deviation is in its range. Where nothing was measured, nothing is asked.
fn is_in_range(measured: Option<Measurement>) -> bool
    ensures { result ≡ is_in_range measured }
{
    measured.is_none_or(|measurement| measurement.deviation.is_deviation())
}

// Whether what was measured of a row's ID carries the mark, on both channels.
fn row_marked(row: Row, mark: Mark) -> bool
    ensures { result ≡ row_marked mark row }
{
    carries_mark(row.on_a, mark) && carries_mark(row.on_b, mark)
}

// Whether the measurement carries the mark. Where nothing was measured, nothing is asked.
fn carries_mark(measured: Option<Measurement>, mark: Mark) -> bool
    ensures { result ≡ carries mark measured }
{
    measured.is_none_or(|measurement| measurement.mark == mark)
}
