// The list of a cycle, and what a measurement makes of it.
ghost use Rattle.std.specs.Prelude.{◌≡◌, ◌≤◌, length, eqb, position, find, option_copied};
ghost use Rattle.sync_list.specs.Lists.{row_count, empty as lists_empty, listed as lists_listed, place_in, row_in, is_measured_on, is_full_for, recorded};

use crate::row::{Measurement, Row};
use base_types::{Channel, Slot};

// How many rows there is room for.
pub const ROWS: usize = correction::MOST_IDS;

// The constant is its rule's (DECISIONS 108).
fn constants()
    ensures { ROWS ≡ row_count }
{}

// Fixed memory and a count, and no `Vec`: no entry may fail for lack of memory, and a state is handed over by value.
#[derive(Clone, Copy)]
pub struct SyncList {
    pub rows: [Row; ROWS],
    // The first so many rows are listed. Those behind them say nothing.
    pub count: usize,
}

impl SyncList {
    pub fn empty() -> SyncList
        ensures { result ≡ lists_empty }
    {
        SyncList {
            rows: [Row::blank(Slot(0)); ROWS],
            count: 0,
        }
    }

    // The rows that are listed: all, where the count is above them.
    pub fn listed(&self) -> &[Row]
        ensures value { result.now ≡ lists_listed self.now }
        ensures few { length result.now ≤ row_count }
    {
        &self.rows[..self.count.min(self.rows.len())]
    }

    // Where the row of an ID stands, if it is listed.
    fn place(&self, id: Slot) -> Option<usize>
        ensures { result ≡ place_in id self.now }
    {
        place_among(id, self.listed())
    }

    // The row of an ID: a blank one where it is not listed.
    pub fn row_of(&self, id: Slot) -> Row
        ensures { result ≡ row_in id (lists_listed self.now) }
    {
        row_among(id, self.listed())
            .copied()
            .unwrap_or(Row::blank(id))
    }

    // Refusal 16, of the cycle of this list.
    pub fn has(&self, id: Slot, channel: Channel) -> bool
        ensures { result ≡ is_measured_on id channel self.now }
    {
        self.row_of(id).on(channel).is_some()
    }

    // Refusal 15, of the cycle of this list.
    pub fn is_full_for(&self, limit: u32, id: Slot) -> bool
        ensures { result ≡ is_full_for limit id self.now }
    {
        limit as usize <= self.count && self.place(id).is_none()
    }

    // The list with a measurement: in the row of its ID, or in a new one, which is the last. A list whose rows are all listed takes
    // no new ID: below the limit there is room.
    pub fn with(&self, id: Slot, channel: Channel, measurement: Measurement) -> SyncList
        ensures { result ≡ recorded id channel measurement self.now }
    {
        let place = self.place(id).unwrap_or(self.count);
        if ROWS <= place {
            return *self;
        }
        let mut next = *self;
        next.rows[place] = self.row_of(id).with(channel, measurement);
        next.count = self.count.max(place + 1);
        next
    }
}

// Where the row of an ID stands, if it is among these.
fn place_among(id: Slot, rows: &[Row]) -> Option<usize>
    ensures { result ≡ position (λ row. eqb row.id.0 id.0) rows.now }
{
    rows.iter().position(|row| row.id == id)
}

// The row of an ID, if it is among these.
fn row_among(id: Slot, rows: &[Row]) -> Option<&Row>
    ensures { option_copied result ≡ find (λ row. eqb row.id.0 id.0) rows.now }
{
    rows.iter().find(|row| row.id == id)
}
