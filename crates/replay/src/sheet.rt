// A settings sheet in a script, and in a line.
use crate::line::Shown;
use crate::script::{Script, ScriptError};
use settings::{FIELDS, Mark, Settings};
use std::fmt;
use std::fmt::{Display, Formatter};
use std::io::Read;

// How many bytes a sheet has, and its mark.
pub const SIZE: usize = 4 * FIELDS + 1;

pub const MARK_SIZE: usize = 4;

// The fields, and the switch. The mark stands further back, and is 0 until it is taken.
pub fn take(script: &mut Script<impl Read>) -> Result<Settings, ScriptError> {
    let mut fields = [0; FIELDS];
    for field in &mut fields {
        *field = script.u32()?;
    }
    Ok(Settings {
        fields,
        sends_sync: script.switch()?,
        mark: Mark(0),
    })
}

// Of a sheet, or of a measurement.
pub fn take_mark(script: &mut Script<impl Read>) -> Result<Mark, ScriptError> {
    Ok(Mark(script.u32()?))
}

// F1 .. F11 SENDS: the mark stands further back here, too.
impl Display for Shown<Settings> {
    fn fmt<W: fmt::Write>(&self, f: &mut Formatter<W>) -> fmt::Result {
        for field in self.0.fields {
            write!(f, "{field} ")?;
        }
        write!(f, "{}", u8::from(self.0.sends_sync))
    }
}
