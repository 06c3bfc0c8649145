// The commands on a slot: opening it, and the three events. Each writes its line, and holds the slot status that comes back.
use crate::script::{MOST, Script, ScriptError};
use crate::{line, sheet};
use base_types::{Cycle, Slot};
use refusal::Answer;
use slot::Status;
use slot_events::Judged;
use std::io::Read;

// How many bytes stand behind `S`.
const OPEN_SIZE: usize = sheet::SIZE + 4 + sheet::MARK_SIZE;

// `S`, with settings, channel, slot, cycle and mark: `slot N FIELD`
pub fn open(
    script: &mut Script<impl Read>,
    to: &impl Print,
    status: &mut Status,
) -> Result<(), ScriptError> {
    let bytes = script.array::<OPEN_SIZE>()?;
    let mut item = Script::new(&bytes[..]);
    let mut settings = sheet::take(&mut item)?;
    let channel = item.u8()?;
    let slot = Slot(item.u16()?);
    let cycle = Cycle(item.u8()?);
    settings.mark = sheet::take_mark(&mut item)?;
    let opened = slot::open_slot(settings, channel, slot, cycle);
    *status = opened.state;
    let field = slot::field_told(opened.answer);
    line::write(to, format_args!("slot {} {field}", opened.answer.number()));
    Ok(())
}

// `A`, with bytes
pub fn arrived(
    script: &mut Script<impl Read>,
    to: &impl Print,
    status: &mut Status,
) -> Result<(), ScriptError> {
    let mut space = [0; MOST];
    let bytes = script.bytes(&mut space)?;
    answer_event(to, status, slot_events::arrived(*status, bytes));
    Ok(())
}

// `B`
pub fn boundary(to: &impl Print, status: &mut Status) {
    answer_event(to, status, slot_events::boundary(*status));
}

// `X`
pub fn sent(to: &impl Print, status: &mut Status) {
    answer_event(to, status, slot_events::sent(*status));
}

// `event N`
fn answer_event(to: &impl Print, status: &mut Status, judged: Judged) {
    *status = judged.state;
    line::write(to, format_args!("event {}", judged.answer.number()));
}
