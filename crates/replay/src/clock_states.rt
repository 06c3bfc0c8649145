// A clock state in a script, and in a line.
use crate::line::Shown;
use crate::lists::Marks;
use crate::script::{Script, ScriptError};
use crate::{line, lists, sheet};
use base_types::{Cycle, SignedMicrotick};
use clock::Clock;
use std::fmt;
use std::fmt::{Display, Formatter};
use std::io::Read;

// How many bytes a clock state has: two cycles with their switches and a rate stand between the sheet and the lists.
const SIZE: usize = sheet::SIZE + 8 + 2 * lists::SIZE + sheet::MARK_SIZE + 2 * lists::MARKS_SIZE;

// `K`: `clock put`
pub fn put(
    script: &mut Script<impl Read>,
    to: &impl Print,
    clock: &mut Clock,
) -> Result<(), ScriptError> {
    let bytes = script.array::<SIZE>()?;
    *clock = take(&mut Script::new(&bytes[..]))?;
    line::write(to, "clock put");
    Ok(())
}

// Settings, open switch, cycle, closed switch, last, rate, even list, odd list, mark, the marks of both lists.
fn take(script: &mut Script<impl Read>) -> Result<Clock, ScriptError> {
    let mut settings = sheet::take(script)?;
    let opened = take_cycle(script)?;
    let last_closed = take_cycle(script)?;
    let rate = SignedMicrotick(script.i32()?);
    let mut even = lists::take(script)?;
    let mut odd = lists::take(script)?;
    settings.mark = sheet::take_mark(script)?;
    lists::take_marks(script, &mut even)?;
    lists::take_marks(script, &mut odd)?;
    Ok(Clock {
        settings,
        even,
        odd,
        opened,
        last_closed,
        rate,
    })
}

// A switch, and a cycle, which is looked at only where the switch is 1.
fn take_cycle(script: &mut Script<impl Read>) -> Result<Option<Cycle>, ScriptError> {
    let is_there = script.switch()?;
    let cycle = Cycle(script.u8()?);
    Ok(is_there.then_some(cycle))
}

// OPEN CYCLE
impl Display for Shown<Option<Cycle>> {
    fn fmt<W: fmt::Write>(&self, f: &mut Formatter<W>) -> fmt::Result {
        let number = self.0.map_or(0, |cycle| cycle.0);
        write!(f, "{} {number}", u8::from(self.0.is_some()))
    }
}

// `clock F1 .. F11 SENDS OPEN CYCLE CLOSED LAST RATE EVEN n (ID SEEN A B)*n ODD n (ID SEEN A B)*n MARK EVEN (A B)*n ODD (A B)*n`
pub fn show(to: &impl Print, clock: Clock) {
    line::write(
        to,
        format_args!(
            "clock {} {} {} {} EVEN {} ODD {} {} EVEN{} ODD{}",
            Shown(clock.settings),
            Shown(clock.opened),
            Shown(clock.last_closed),
            clock.rate.0,
            Shown(clock.even),
            Shown(clock.odd),
            clock.settings.mark.0,
            Marks(clock.even),
            Marks(clock.odd)
        ),
    );
}
