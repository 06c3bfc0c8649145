// A sync list in a script, and in a line.
use crate::flags::{byte_of, flags_of};
use crate::line::Shown;
use crate::script::{Script, ScriptError};
use crate::sheet;
use base_types::{SignedMicrotick, Slot};
use settings::Mark;
use std::fmt;
use std::fmt::{Display, Formatter};
use std::io::Read;
use sync_list::{Measurement, ROWS, Row, SyncList};

// How many bytes a row has, a list, which is a count and the rows, and the marks of a list.
const ROW_SIZE: usize = 11;

pub const SIZE: usize = 1 + ROW_SIZE * ROWS;

pub const MARKS_SIZE: usize = 2 * sheet::MARK_SIZE * ROWS;

// A count and the rows; the marks of its measurements stand further back. A row behind the count is taken as it stands; the list itself
// knows that it is not listed.
pub fn take(script: &mut Script<impl Read>) -> Result<SyncList, ScriptError> {
    let count = usize::from(script.u8()?);
    let mut rows = [Row::blank(Slot(0)); ROWS];
    for row in &mut rows {
        *row = take_row(script)?;
    }
    Ok(SyncList { rows, count })
}

// ID, seen, deviation on A, deviation on B. A bit of seen says whether the deviation of its channel, and its mark, are looked at, A's the
// lowest; the bits above the two are not looked at.
fn take_row(script: &mut Script<impl Read>) -> Result<Row, ScriptError> {
    let id = Slot(script.u16()?);
    let [on_a, on_b, ..] = flags_of(script.u8()?);
    Ok(Row {
        id,
        on_a: on_a.then_some(take_unmarked(script)?),
        on_b: on_b.then_some(take_unmarked(script)?),
    })
}

fn take_unmarked(script: &mut Script<impl Read>) -> Result<Measurement, ScriptError> {
    Ok(Measurement {
        deviation: SignedMicrotick(script.i32()?),
        mark: Mark(0),
    })
}

// The marks of all rows, a pair for each: A's and B's.
pub fn take_marks(script: &mut Script<impl Read>, list: &mut SyncList) -> Result<(), ScriptError> {
    for row in &mut list.rows {
        row.on_a = marked(row.on_a, sheet::take_mark(script)?);
        row.on_b = marked(row.on_b, sheet::take_mark(script)?);
    }
    Ok(())
}

fn marked(measured: Option<Measurement>, mark: Mark) -> Option<Measurement> {
    let deviation = measured?.deviation;
    Some(Measurement { deviation, mark })
}

// ID SEEN A B
impl Display for Shown<Row> {
    fn fmt<W: fmt::Write>(&self, f: &mut Formatter<W>) -> fmt::Result {
        let row = self.0;
        let seen = byte_of(&[row.on_a.is_some(), row.on_b.is_some()]);
        write!(
            f,
            "{} {seen} {} {}",
            row.id.0,
            deviation_of(row.on_a),
            deviation_of(row.on_b)
        )
    }
}

fn deviation_of(measured: Option<Measurement>) -> i32 {
    measured.map_or(0, |measurement| measurement.deviation.0)
}

fn mark_of(measured: Option<Measurement>) -> u32 {
    measured.map_or(0, |measurement| measurement.mark.0)
}

// n (ID SEEN A B)*n, with the listed rows.
impl Display for Shown<SyncList> {
    fn fmt<W: fmt::Write>(&self, f: &mut Formatter<W>) -> fmt::Result {
        let list = self.0;
        write!(f, "{}", list.count)?;
        for row in list.listed() {
            write!(f, " {}", Shown(*row))?;
        }
        Ok(())
    }
}

// The marks of the listed rows: (A B)*n, with a space before each.
#[derive(Clone, Copy)]
pub struct Marks(pub SyncList);

impl Display for Marks {
    fn fmt<W: fmt::Write>(&self, f: &mut Formatter<W>) -> fmt::Result {
        let list = self.0;
        for row in list.listed() {
            write!(f, " {} {}", mark_of(row.on_a), mark_of(row.on_b))?;
        }
        Ok(())
    }
}
