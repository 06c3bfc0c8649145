// Reads a channel byte and frame bytes from standard input, and writes one line: `accepted ID CYCLE WORDS`, or `refused N`, for 4 and
// 8 with the checksum found and the one expected.
// The line is made by the library `bench_line`, by the front of the input alone; the program only reads and writes.
#![tactic(auto)]

ghost use Rattle.std.specs.Prelude.{◌≤◌, ◌≡◌, length, take, IfOk, IfSome};
ghost use Rattle.bench_line.specs.Line.{front as line_front, longest};
ghost use Rattle.bench.specs.Program.{Answers};

use std::io;
use std::io::Read;

// No contract can say what is read and written, so `main` has none: it reads until the front is full or the input ends, and writes
// what `answer` has put into the line.
fn main(rt: HostRuntime) -> io::Result<()> {
    let mut front = [0u8; bench_line::FRONT];
    let mut input = rt.stdin();
    let size = read_front(&mut input, &mut front)?;
    let mut line = [0u8; bench_line::LONGEST];
    let end = answer(&front, size, &mut line);
    rt.write_all(&line[0..end])
}

// Reads until the front is full or the input ends, and answers how many bytes that was: the first ones of a reader whose bytes are known.
fn read_front<R: Read>(input: &mut R, front: &mut [u8]) -> io::Result<usize>
    ensures upper_bound { IfOk result (λ size. size ≤ length front.old) }
    ensures bytes { IfOk result (λ size. IfSome (R.remaining input.old) (λ known. take size front.new ≡ take (length front.old) known)) }
{
    let mut size = 0;
    // (No `for`: a read may give fewer bytes than there is room for.)
    while size < front.len() {
        let read = input.read(&mut front[size..])?;
        if read == 0 {
            return Ok(size);
        }
        size += read;
    }
    Ok(size)
}

// What is to be written for what was read: puts it into the line, and answers its size. The first `size` bytes of the front were
// read; that there is room for the front and for the longest line is required, since with less some input would get the line of another. (Front
// and size: the part that was read would not say that the front has room.)
fn answer(front: &[u8], size: usize, line: &mut [u8]) -> usize
    requires { (length front.now ≡ line_front) × (size ≤ length front.now) × (length line.old ≡ longest) }
    ensures answers { Answers (take size front.now) (take result line.new) }
    ensures upper_bound { result ≤ length line.old }
{
    bench_line::line(&front[0..size], line)
}
