// A slot status in a script, and in a line.
use crate::flags::{byte_of, flags_of};
use crate::line::Shown;
use crate::script::{Script, ScriptError};
use crate::{line, sheet};
use base_types::{Channel, Cycle, Slot};
use checksum::ChecksumPair;
use header::Header;
use slot::{Miss, Reason, Status};
use std::fmt;
use std::fmt::{Display, Formatter};
use std::io::Read;

// How many bytes a status has: fourteen between the sheet and its mark, and two checksums.
const SIZE: usize = sheet::SIZE + 14 + sheet::MARK_SIZE + 8;

// `T`: `status put`
pub fn put(
    script: &mut Script<impl Read>,
    to: &impl Print,
    status: &mut Status,
) -> Result<(), ScriptError> {
    let bytes = script.array::<SIZE>()?;
    *status = take(&mut Script::new(&bytes[..]))?;
    line::write(to, "status put");
    Ok(())
}

// Settings, channel switch, slot, cycle, marks, reason, kept frame, the sheet's mark, and the two checksums.
fn take(script: &mut Script<impl Read>) -> Result<Status, ScriptError> {
    let mut settings = sheet::take(script)?;
    let channel = take_channel(script)?;
    let slot = Slot(script.u16()?);
    let cycle = Cycle(script.u8()?);
    // The status's own marks, and not the sheet's, which stands further back.
    let [
        syntax_error,
        content_error,
        boundary_violation,
        conflict,
        valid,
        own_sending,
        ..
    ] = flags_of(script.u8()?);
    let reason = take_reason(script)?;
    let kept = take_kept(script)?;
    settings.mark = sheet::take_mark(script)?;
    Ok(Status {
        settings,
        channel,
        slot,
        cycle,
        syntax_error,
        content_error,
        boundary_violation,
        conflict,
        valid,
        own_sending,
        reason,
        kept,
        checksums: ChecksumPair {
            found: script.u32()?,
            expected: script.u32()?,
        },
    })
}

// The switch of a channel is its number.
pub fn take_channel(script: &mut Script<impl Read>) -> Result<Channel, ScriptError> {
    Ok(Channel::try_from(script.u8()?)?)
}

// (No TryFrom: the type and the trait are of other crates.)
fn take_reason(script: &mut Script<impl Read>) -> Result<Option<Reason>, ScriptError> {
    match script.u8()? {
        0 => Ok(None),
        1 => Ok(Some(Reason::Missed(Miss::OtherId))),
        2 => Ok(Some(Reason::Missed(Miss::OtherCycle))),
        3 => Ok(Some(Reason::Missed(Miss::OtherWords))),
        4 => Ok(Some(Reason::Missed(Miss::SyncOrStartup))),
        5 => Ok(Some(Reason::Missed(Miss::NullFrame))),
        6 => Ok(Some(Reason::SecondGoodFrame)),
        _ => Err(ScriptError),
    }
}

impl Display for Shown<Option<Reason>> {
    fn fmt<W: fmt::Write>(&self, f: &mut Formatter<W>) -> fmt::Result {
        f.write_str(match self.0 {
            None => "0",
            Some(Reason::Missed(Miss::OtherId)) => "1",
            Some(Reason::Missed(Miss::OtherCycle)) => "2",
            Some(Reason::Missed(Miss::OtherWords)) => "3",
            Some(Reason::Missed(Miss::SyncOrStartup)) => "4",
            Some(Reason::Missed(Miss::NullFrame)) => "5",
            Some(Reason::SecondGoodFrame) => "6",
        })
    }
}

// Kept switch, flags, ID, words, checksum, cycle. What stands behind the switch is looked at only where it is 1.
fn take_kept(script: &mut Script<impl Read>) -> Result<Option<Header>, ScriptError> {
    let is_kept = script.switch()?;
    let [reserved, preamble, null_frame_bit, sync, startup, ..] = flags_of(script.u8()?);
    let header = Header {
        reserved,
        preamble,
        null_frame_bit,
        sync,
        startup,
        id: Slot(script.u16()?),
        words: script.u8()?,
        checksum: script.u16()?,
        cycle: Cycle(script.u8()?),
    };
    Ok(is_kept.then_some(header))
}

// KEPT FLAGS ID WORDS CHECKSUM CYCLE
impl Display for Shown<Option<Header>> {
    fn fmt<W: fmt::Write>(&self, f: &mut Formatter<W>) -> fmt::Result {
        let header = self.0.unwrap_or(Header::NONE);
        let flags = byte_of(&line::flags_in(header));
        write!(
            f,
            "{} {flags} {} {} {} {}",
            u8::from(self.0.is_some()),
            header.id.0,
            header.words,
            header.checksum,
            header.cycle.0
        )
    }
}

// `status F1 .. F11 SENDS CHANNEL SLOT CYCLE MARKS REASON KEPT FLAGS ID WORDS CHECKSUM CYCLE MARK FOUND EXPECTED`
pub fn show(to: &impl Print, status: Status) {
    let marks = byte_of(&[
        status.syntax_error,
        status.content_error,
        status.boundary_violation,
        status.conflict,
        status.valid,
        status.own_sending,
    ]);
    line::write(
        to,
        format_args!(
            "status {} {} {} {} {marks} {} {} {} {}",
            Shown(status.settings),
            u8::from(status.channel),
            status.slot.0,
            status.cycle.0,
            Shown(status.reason),
            Shown(status.kept),
            status.settings.mark.0,
            Shown(status.checksums)
        ),
    );
}
