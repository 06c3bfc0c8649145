// The line that the bench program writes (document 01, "Numbers to check against").
//
// Entry: `line` on the program's input, a channel byte and frame bytes, and lent output. The program `bench` reads and writes;
// everything that decides stands here and in `frame`.
#![tactic(auto)]

ghost use Rattle.std.specs.Prelude.{◌≡◌, ◌+◌, ◌≤◌, ◌++◌, length};
ghost use Rattle.frame.specs.Read.{number_of, checksums_of, told};
ghost use Rattle.bench_line.specs.Line.{front as line_front, longest as line_longest, behind_space, accepted_line, behind_number, refused_line, line_by, ReadingOfInput, LineSays};
ghost use Rattle.bench_line.specs.Room.{number_room, line_room};

use arrayvec::ArrayString;
use frame::{ReadRefusal, Reading};
use header::Header;
use refusal::Refusal;

// The longest line, `refused 8` with two checksums of eight digits and its line feed. Output of this size takes every line.
pub const LONGEST: usize = 28;

// How much of an input tells its line: a channel byte, the longest frame, and one byte more. What lies behind changes no line.
pub const FRONT: usize = 1 + Header::LONGEST_FRAME + 1;

// The constants are their rules' (DECISIONS 108).
fn constants()
    ensures longest { LONGEST ≡ line_longest }
    ensures front { FRONT ≡ line_front }
{}

// Room for a word, three numbers of any size and a line feed.
const ROOM: usize = 72;

type Line = ArrayString<ROOM>;

// Puts the line for this input at the front of the output, and answers its size. Output that is too short for it stays as it is,
// with 0. (The second promise follows from the first, and lets a caller take the part of the output that the size names. A
// size and no Option: `LineSays` is of the size, and no line has size 0.)
pub fn line(input: &[u8], output: &mut [u8]) -> usize
    ensures line_says { LineSays input.now output.old output.new result }
    ensures upper_bound { result ≤ length output.old }
{
    let line = line_told(read_input(input));
    lent_bytes::put(output, 0, line.as_bytes())
}

// Reads the frame behind the channel byte. No input names no channel.
fn read_input(input: &[u8]) -> Reading
    ensures { ReadingOfInput input.now result }
{
    let Some((channel, bytes)) = input.split_first() else {
        return Err(ReadRefusal::NotAChannel);
    };
    frame::read(*channel, bytes)
}

// `accepted ID CYCLE WORDS`, or `refused N` with what is told beside it, and the line feed.
fn line_told(reading: Reading) -> Line
    ensures { result.bytes ≡ line_by (told reading) }
{
    match reading {
        Ok(header) => accepted(header),
        Err(refusal) => refused(refusal),
    }
}

fn accepted(header: Header) -> Line
    ensures { result.bytes ≡ accepted_line header }
{
    let mut line = Line::new();
    line.push_str("accepted");
    push_number(&mut line, header.id.0 as u64);
    push_number(&mut line, header.cycle.0 as u64);
    push_number(&mut line, header.words as u64);
    line.push_str("\n");
    line
}

fn refused(refusal: ReadRefusal) -> Line
    ensures { result.bytes ≡ refused_line (number_of refusal) (checksums_of refusal) }
{
    let mut line = Line::new();
    line.push_str("refused");
    push_number(&mut line, refusal.number() as u64);
    push_checksums(&mut line, refusal);
    line.push_str("\n");
    line
}

// `FOUND EXPECTED` behind 4 and 8, and nothing behind any other number.
fn push_checksums(line: &mut Line, refusal: ReadRefusal)
    requires { length line.old.bytes + number_room + number_room ≤ line_room }
    ensures bytes { line.new.bytes ≡ line.old.bytes ++ behind_number (number_of refusal) (checksums_of refusal) }
    ensures upper_bound { length line.new.bytes ≤ length line.old.bytes + number_room + number_room }
{
    match refusal {
        ReadRefusal::HeaderChecksumDiffers(checksums)
        | ReadRefusal::FrameChecksumDiffers(checksums) => {
            push_number(line, checksums.found as u64);
            push_number(line, checksums.expected as u64);
        }
        _ => {}
    }
}

// A space, and the number behind it.
fn push_number(line: &mut Line, number: u64)
    requires { length line.old.bytes + number_room ≤ line_room }
    ensures bytes { line.new.bytes ≡ line.old.bytes ++ behind_space number }
    ensures upper_bound { length line.new.bytes ≤ length line.old.bytes + number_room }
{
    let mut digits = itoa::Buffer::new();
    line.push_str(" ");
    line.push_str(digits.format(number));
}
