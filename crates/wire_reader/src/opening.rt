// A reader opened.
ghost use Rattle.wire_reader.specs.Opening.{OpenSays};

use crate::reader::Reader;
use base_types::{Channel, NotAChannel};
use refusal::Answered;

// Opens a reader on a channel that is given by its number. (A number, as 01's refusal 1 asks.) With a refusal the reader is all zeros.
pub fn open_reader(channel: u8) -> Answered<(), NotAChannel, Reader>
    ensures { OpenSays channel result }
{
    match Channel::try_from(channel) {
        Ok(named) => Answered::accepted((), Reader::fresh(named)),
        Err(refusal) => Answered::refused(refusal, Reader::none()),
    }
}
