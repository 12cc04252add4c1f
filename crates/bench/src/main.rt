// The program: reads a trace from standard input and prints what `listing` says of it. It reads one byte more than it takes, so that a longer
// input is seen.
#![tactic(auto)]

ghost use Rattle.std.specs.Prelude.{◌≡◌, ◌≤◌, ◌<◌, length, take, IfOk};
ghost use Rattle.std.specs.Io.KnownBytes.{Consumes, IsAtEnd};

use std::io;
use std::io::{Read, Write};

// Reads until the buffer is full or the input ends, and says how many bytes that were.
// No method of std promises this of a lent buffer: `read_exact` tells nothing of a shorter input, nor `io::copy` what a `Cursor` then holds.
fn read_full<R: Read>(input: &mut R, buffer: &mut [u8]) -> io::Result<usize>
    ensures within { IfOk result (λ n. n ≤ length buffer.new) }
    ensures bytes { IfOk result (λ n. Consumes (R.remaining input.old) (R.remaining input.new) (take n buffer.new)) }
    ensures whole { IfOk result (λ n. n < length buffer.new → IsAtEnd (R.remaining input.new)) }
{
    let mut taken = 0;
    while taken < buffer.len() {
        let n = input.read(&mut buffer[taken..])?;
        if n == 0 {
            break;
        }
        taken += n;
    }
    Ok(taken)
}

fn main(rt: HostRuntime) -> io::Result<()> {
    let mut input = [0; listing::MOST_INPUT + 1];
    let taken = read_full(&mut rt.stdin(), &mut input)?;
    let mut text = [0; listing::TEXT];
    let len = listing::list(&input[..taken], &mut text);
    let mut output = rt.stdout();
    output.write_all(&text[..len])?;
    output.flush()
}
