// A reader of the wire, and what it makes of a sample.
ghost use Rattle.std.specs.Prelude.{◌≡◌, true, ◌<◌, ◌≤◌, length};
ghost use Rattle.header.specs.Layout.{longest_frame};
ghost use Rattle.wire_reader.specs.Reader.{ticked, step, fresh_reader, no_reader, state_of};
ghost use Rattle.wire_reader.specs.Sound.{slack_of, sound};
ghost use Rattle.wire_reader.specs.Pending.{step_by};

use crate::decoder;
use crate::decoder::Bytes;
use crate::event::Event;
use crate::phase::Phase;
use base_types::Channel;
use bit_clock::BitClock;

// What is known between two samples. The bytes so far are the first `count` of the memory that is lent with it: a state
// holds no reference, and the memory is the host's (DECISIONS 157).
#[derive(Clone, Copy)]
pub struct Reader {
    pub channel: Channel,
    pub clock: BitClock,
    // Samples since the last low bit, up to 88: then the channel is idle.
    pub timer: u8,
    pub phase: Phase,
    pub count: u16,
    // Samples since the reference point of the frame.
    pub since: u32,
}

// Eleven bits, eight samples each.
const IDLE_SAMPLES: u8 = 88;

// What comes of a sample.
#[derive(Clone, Copy)]
pub(crate) struct Sampled {
    pub reader: Reader,
    pub event: Event,
}

impl Reader {
    // Before the first sample.
    pub fn fresh(channel: Channel) -> Reader
        ensures { result ≡ fresh_reader channel }
    {
        Reader {
            channel,
            clock: BitClock::fresh(),
            timer: 0,
            phase: Phase::Waiting,
            count: 0,
            since: 0,
        }
    }

    // All zeros: what stands beside a refusal. It is not sound.
    pub fn none() -> Reader
        ensures { result ≡ no_reader }
    {
        Reader {
            channel: Channel::A,
            clock: BitClock::none(),
            timer: 0,
            phase: Phase::Waiting,
            count: 0,
            since: 0,
        }
    }

    // "A state handed in isn't sound" is refusal 23.
    pub fn is_sound(self) -> bool
        ensures { result ≡ sound self }
    {
        let clock = self.clock;
        let phase = self.phase;
        let slack = slack_of(clock);
        let timer_is_sound = (self.timer <= IDLE_SAMPLES)
            & (clock.votes() | ((self.timer == 0) & phase.is_waiting()));
        clock.is_sound() & (timer_is_sound & phase.is_sound(self.count, self.since, slack))
    }
}

// Takes a sample.
pub(crate) fn sample(reader: Reader, high: bool, memory: &mut [u8]) -> Sampled
    requires { (sound reader ≡ true) × (longest_frame ≤ length memory.old) }
    ensures memory_after { step_by result memory.new ≡ step reader.channel (state_of reader memory.old) high }
    ensures channel_value { result.reader.channel ≡ reader.channel }
    ensures reader_value { sound result.reader ≡ true }
{
    let channel = reader.channel;
    let clock = reader.clock;
    let phase = reader.phase;
    let count = reader.count;
    let v = clock.vote(high);
    let next = clock.after(phase.is_data(), high, v);
    let timer = ticked(clock, reader.timer);
    let since = phase.counted(reader.since);
    if !clock.strobes(v) {
        return Sampled {
            reader: Reader {
                channel,
                clock: next,
                timer,
                phase,
                count,
                since,
            },
            event: None,
        };
    }
    let d = decoder::decode(
        channel,
        phase,
        v,
        timer == IDLE_SAMPLES,
        Bytes { count, since },
        memory,
    );
    let timer = if v { timer } else { 0 };
    Sampled {
        reader: Reader {
            channel,
            clock: next,
            timer,
            phase: d.phase,
            count: d.bytes.count,
            since: d.bytes.since,
        },
        event: d.event,
    }
}

// The timer, this sample counted, up to the samples that make the channel idle.
fn ticked(clock: BitClock, timer: u8) -> u8
    ensures { result ≡ ticked clock timer }
{
    if clock.votes() {
        timer.saturating_add(1).min(IDLE_SAMPLES)
    } else {
        timer
    }
}

// How many samples there may be behind the last strobe, by the counter.
fn slack_of(clock: BitClock) -> u32
    ensures { (result ≡ slack_of clock) × (result < 12) }
{
    let behind = (clock.counter % 8 + 2) % 8;
    if clock.realigns { behind } else { behind + 4 }
}
