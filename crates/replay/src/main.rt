// Plays a script through the libraries and says, line by line, what each of them answered. Everything that decides stands in
// the libraries; the program only takes the script apart and prints.
#![tactic(auto)]

mod clock_states;
mod clocks;
mod flags;
mod frames;
mod held;
mod line;
mod lists;
mod pieces;
mod readers;
mod script;
mod sheet;
mod slots;
mod statuses;

use held::Held;
use script::{Script, ScriptError};
use std::io::Read;

// Plays the command with this letter. Each is lent what it may change, and no more, and takes all that stands behind its letter before it is
// played, so that with a script error it does nothing. An unknown letter is one.
// (A letter is matched where it is taken: an enum of letters would be this match once more.)
fn play(
    script: &mut Script<impl Read>,
    to: &impl Print,
    letter: u8,
    held: &mut Held,
) -> Result<(), ScriptError> {
    match letter {
        b'F' => frames::checksum(script, to)?,
        b'R' => frames::read(script, to)?,
        b'W' => frames::write(script, to)?,
        b'P' => frames::bench(script, to)?,
        b'E' => frames::encode(script, to)?,
        b'L' => clocks::load(script, to, &mut held.clock)?,
        b'O' => clocks::open_cycle(script, to, &mut held.clock)?,
        b'M' => clocks::measure(script, to, &mut held.clock, held.status)?,
        b'C' => clocks::close_cycle(script, to, &mut held.clock)?,
        b'K' => clock_states::put(script, to, &mut held.clock)?,
        b'S' => slots::open(script, to, &mut held.status)?,
        b'A' => slots::arrived(script, to, &mut held.status)?,
        b'B' => slots::boundary(to, &mut held.status),
        b'X' => slots::sent(to, &mut held.status),
        b'T' => statuses::put(script, to, &mut held.status)?,
        b'H' => readers::open(script, to, &mut held.reader)?,
        b'V' => readers::put(script, to, &mut held.reader)?,
        b'Y' => pieces::listen(script, to, held)?,
        b'Z' => readers::show(to, held.reader, &held.memory),
        b'D' => {
            clock_states::show(to, held.clock);
            statuses::show(to, held.status);
        }
        _ => return Err(ScriptError),
    }
    Ok(())
}

// A proved loop has to end, and nothing says that a script does. So the count of commands has an end, which no run reaches.
fn main(rt: HostRuntime) {
    let mut script = Script::new(rt.stdin());
    let mut held = Held::at_start();
    for command in 0..u64::MAX {
        let Some(letter) = script.letter() else {
            return;
        };
        if play(&mut script, &rt, letter, &mut held).is_err() {
            line::write(&rt, format_args!("script error at {command}"));
            return;
        }
    }
}
