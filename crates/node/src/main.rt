// A node, from its sheet to the report of a cycle: what a host programmer reads first. Every entry that it needs is called in one place,
// and every answer is looked at. A state is a value: it is handed in, and the next one comes back, or with a refusal the same one.
//
// The times are chosen so that each number of `stdout` can be worked out by hand.
#![tactic(auto)]

mod term;

use base_types::{Channel, Cycle, Microtick, Slot};
use clock::Clock;
use correction::Term;
use header::Fields;
use refusal::{Answer, Refusal};
use settings::{Field, Mark, Settings};
use slot::Status;
use std::fmt::Display;
use term::Said;
use writing::Writing;

fn main(rt: HostRuntime) {
    let mut node = Node {
        to: &rt,
        clock: Clock::none(),
    };
    node.load(sheet(Mark(1), 40, 44));
    node.even_cycle(Cycle(0));
    node.begin_odd_cycle(Cycle(1));
    node.end_odd_cycle(Cycle(1), -1, 1);

    // The same again, up to slot 1 of cycle 3. From there on that cycle is told twice.
    node.even_cycle(Cycle(2));
    let cycle = Cycle(3);
    node.begin_odd_cycle(cycle);
    let mut same = node;
    same.say("If no other sheet is loaded:\n");
    same.end_odd_cycle(cycle, 0, 0);

    // Another harness, and so other delays, on a sheet with another mark, which the report tells. Loading takes no state, so nothing is left
    // of what was measured with the old ones: no cycle is open; slot 1 is not among the IDs, or the offset would be -1; cycle 2 gives no
    // rate, or it would be -4; and no rate is stored, or it would be -10.
    node.say("If another is loaded here:\n");
    node.load(sheet(Mark(2), 30, 36));
    node.receive(cycle, Slot(2), Microtick(2_099), Microtick(2_091), 0);
    node.open_cycle(cycle);
    node.end_odd_cycle(cycle, 0, 0);
}

// Fields 1 to 11: decoding correction, delay A, delay B, sync ID limit, offset limit, rate limit, drift damping, external offset unit,
// external rate unit, static payload words, static slots. This node sends no sync frame. The mark names the sheet.
fn sheet(mark: Mark, delay_a: u32, delay_b: u32) -> Settings {
    Settings {
        fields: [56, delay_a, delay_b, 3, 8, 20, 2, 5, 3, 2, 8],
        sends_sync: false,
        mark,
    }
}

// The clock state that the node holds, and where it says what comes of it.
#[derive(Clone, Copy)]
struct Node<'a, P> {
    to: &'a P,
    clock: Clock,
}

impl<P: Print> Node<'_, P> {
    // The smaller deviations of the three slots are -9, 7 and 21. The smallest and the largest are discarded: the offset is 7.
    fn even_cycle(&mut self, cycle: Cycle) {
        self.open_cycle(cycle);
        self.receive(cycle, Slot(1), Microtick(1_100), Microtick(1_091), 0);
        self.receive(cycle, Slot(2), Microtick(2_108), Microtick(2_107), 0);
        self.receive(cycle, Slot(3), Microtick(3_117), Microtick(3_118), 1);
        self.close_cycle(cycle, 0, 0);
    }

    fn begin_odd_cycle(&mut self, cycle: Cycle) {
        self.open_cycle(cycle);
        self.receive(cycle, Slot(1), Microtick(1_095), Microtick(1_083), 0);
    }

    // In cycle 1 the offset is -9, limited to -8, and its control takes a unit of 5 off. For the rate the slots give -6 (half of -5 and -8),
    // -12 (half of -9 and -16) and -20 (on A alone): -12 is damped by 2, -10 is stored, and its control adds a unit of 3.
    fn end_odd_cycle(&mut self, cycle: Cycle, offset_control: i32, rate_control: i32) {
        self.receive(cycle, Slot(2), Microtick(2_099), Microtick(2_091), 0);
        self.receive(cycle, Slot(3), Microtick(3_097), Microtick(3_104), 0);
        self.close_cycle(cycle, offset_control, rate_control);
    }

    fn load(&mut self, settings: Settings) {
        let loaded = clock::load(settings);
        self.clock = loaded.state;
        let mark = settings.mark.0;
        let delay_a = settings.get(Field::DelayA);
        let delay_b = settings.get(Field::DelayB);
        match loaded.answer {
            Ok(()) => self.say(format_args!(
                "sheet {mark} loaded: delay {delay_a} on A, {delay_b} on B\n"
            )),
            Err(refusal) => self.say(format_args!("sheet {mark} refused {}\n", refusal.number())),
        }
    }

    fn open_cycle(&mut self, cycle: Cycle) {
        let opened = clock::open_cycle(self.clock, cycle);
        self.clock = opened.state;
        match opened.answer {
            Ok(()) => self.say(format_args!("cycle {} opened\n", cycle.0)),
            Err(refusal) => self.say(format_args!(
                "cycle {} refused {}\n",
                cycle.0,
                refusal.number()
            )),
        }
    }

    // A slot in which a frame of 12 bytes is observed on A and on B at these times. `noise` has the bits that are turned over in the first
    // byte of the payload on B.
    fn receive(&mut self, cycle: Cycle, slot: Slot, on_a: Microtick, on_b: Microtick, noise: u8) {
        self.say(format_args!("cycle {} slot {}: on A", cycle.0, slot.0));
        self.receive_on(Channel::A, cycle, slot, on_a, 0);
        self.say(", on B");
        self.receive_on(Channel::B, cycle, slot, on_b, noise);
        self.say("\n");
    }

    fn receive_on(
        &mut self,
        channel: Channel,
        cycle: Cycle,
        slot: Slot,
        observed: Microtick,
        noise: u8,
    ) {
        let mut frame = [0u8; 12];
        self.say_refusal(send(channel, cycle, slot, &mut frame));
        frame[5] ^= noise;
        let status = self.judge(channel, cycle, slot, &frame);
        self.measure(status, observed);
    }

    // That the frame is disturbed is no refusal: the arrival is recorded, and the status tells what it was.
    fn judge(&self, channel: Channel, cycle: Cycle, slot: Slot, bytes: &[u8]) -> Status {
        let opened = slot::open_slot(self.clock.settings, u8::from(channel), slot, cycle);
        self.say_refusal(opened.answer);
        let judged = slot_events::arrived(opened.state, bytes);
        self.say_refusal(judged.answer);
        let status = judged.state;
        if status.syntax_error {
            self.say(" syntax error,");
        }
        status
    }

    // The action points are 1,000, 2,000 and 3,000.
    fn measure(&mut self, status: Status, observed: Microtick) {
        let action_point = Microtick(u32::from(status.slot.0) * 1_000);
        let measured = measuring::measure(self.clock, status, observed, action_point);
        self.clock = measured.state;
        match measured.answer {
            Ok(deviation) => self.say(format_args!(" deviation {}", deviation.0)),
            Err(refusal) => self.say(format_args!(" refused {}", refusal.number())),
        }
    }

    fn close_cycle(&mut self, cycle: Cycle, offset_control: i32, rate_control: i32) {
        let closed = closing::close_cycle(self.clock, offset_control, rate_control);
        self.clock = closed.state;
        match closed.answer {
            Ok(report) => {
                let offset = Said(Term {
                    value: report.offset,
                    is_missing: report.offset_missing,
                    is_limited: report.offset_limited,
                });
                let rate = Said(Term {
                    value: report.rate,
                    is_missing: report.rate_missing,
                    is_limited: report.rate_limited,
                });
                self.say(format_args!(
                    "cycle {} closed: offset {offset}, rate {rate}, IDs {}, by sheet {}\n",
                    cycle.0, report.ids, report.mark.0
                ));
            }
            Err(refusal) => self.say(format_args!(
                "cycle {} refused {}\n",
                cycle.0,
                refusal.number()
            )),
        }
    }

    // That it is not heard stops no node: a write that fails is left at that.
    fn say(&self, text: impl Display + Drop) {
        let _ = self.to.print(text);
    }

    // Of an answer, the number of the refusal that it may be.
    fn say_refusal(&self, answer: impl Answer) {
        let number = answer.number();
        if number != 0 {
            self.say(format_args!(" refused {number}"));
        }
    }
}

// What the sender of the slot does: it writes a sync frame in place, with two words of payload, which is what field 10 asks for.
fn send(channel: Channel, cycle: Cycle, slot: Slot, frame: &mut [u8]) -> Writing {
    let fields = Fields {
        reserved: false,
        preamble: false,
        null_frame_bit: true,
        sync: true,
        startup: false,
        id: slot,
        cycle,
    };
    writing::write(u8::from(channel), fields, b"node", frame)
}
