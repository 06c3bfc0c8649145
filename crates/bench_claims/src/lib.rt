// What follows from the rule of the bench program's line. `specs/` states the claims, `proofs/` proves them, and this file has their
// witnesses: short functions over the entry, proved from its contract alone.
#![tactic(auto)]

ghost use Rattle.std.specs.Prelude.{◌≡◌, true};
ghost use Rattle.bench_line.specs.Line.{LineSays};

// The line of an input by its front alone, which is all that the bench program reads of it.
pub fn line_by_front(input: &[u8], output: &mut [u8]) -> usize
    ensures { LineSays input.now output.old output.new result }
{
    if input.len() < bench_line::FRONT {
        return bench_line::line(input, output);
    }
    bench_line::line(&input[0..bench_line::FRONT], output)
}

// Whether there is room for the line of an input: always.
pub fn has_room(input: &[u8]) -> bool
    ensures { result ≡ true }
{
    let mut output = [0u8; bench_line::LONGEST];
    0 < bench_line::line(input, &mut output)
}
