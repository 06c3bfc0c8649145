// What C-11 writes is read back, also where samples are disturbed. `specs/` states the claims, `proofs/` proves them, and this file has
// their witnesses: short functions over the entries of the reader, proved from their contracts alone.
#![tactic(auto)]

ghost use Rattle.read_back.specs.Witnesses.{FirstHeard, AllHeard};

use reader_claims::Played;
use wire_reader::Listened;

// What a fresh reader on a channel hears first. Of a frame that was sent it is that frame, in the sample that the rule names.
pub fn first_heard(channel: u8, samples: &[u8], memory: &mut [u8]) -> Listened
    ensures { FirstHeard channel samples.now memory.old memory.new result }
{
    let opened = wire_reader::open_reader(channel);
    wire_reader::listen(opened.state, samples, memory)
}

// How many frames and errors it hears in all, and what lies in the memory then. Of frames that were sent one behind the other it is as many
// frames, and no error, also where samples are disturbed.
pub fn all_heard(channel: u8, samples: &[u8], memory: &mut [u8]) -> Played
    ensures { AllHeard channel samples.now memory.old memory.new result }
{
    let opened = wire_reader::open_reader(channel);
    reader_claims::play(opened.state, samples, memory)
}
