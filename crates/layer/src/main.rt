// The layer program: reads an L command, the sides and the bitmap of a layer, from standard input, and writes the layer's sheet or a refusal to
// standard output. `slicing::slice` has the work.
#![tactic(auto)]

ghost use Rattle.std.specs.Prelude.{◌<◌, length, take, IfOk};
ghost use Rattle.std.specs.Io.{ReadsAtMost};
ghost use Rattle.std.specs.Io.KnownBytes.{Consumes, IsAtEnd};

use slicing::ANSWER_LIMIT;
use std::io;
use std::io::Read;

// The longest command with its bitmap is 5 + 64 × 8 bytes. One byte more is read, so that an input that is too long is seen as such: `input_limit`
// of slicing's specs/Slice.antt.
const INPUT_LIMIT: usize = 518;

// Reads until the place is full or the input ends, and returns how many bytes it put at the start of the place.
fn read_full<R: Read>(input: &mut R, place: &mut [u8]) -> io::Result<usize>
    ensures bound { ReadsAtMost result place.new }
    ensures taken { IfOk result (λ n. Consumes (R.remaining input.old) (R.remaining input.new) (take n place.new)) }
    ensures short_at_end { IfOk result (λ n. n < length place.new → IsAtEnd (R.remaining input.new)) }
{
    let mut done = 0;
    while done < place.len() {
        let n = input.read(&mut place[done..])?;
        if n == 0 {
            break;
        }
        done += n;
    }
    Ok(done)
}

fn main(rt: HostRuntime) -> io::Result<()> {
    let mut input = [0u8; INPUT_LIMIT];
    let mut output = [0u8; ANSWER_LIMIT];
    let got = read_full(&mut rt.stdin(), &mut input)?;
    let n = slicing::slice(&input[..got], &mut output);
    rt.write_all(&output[..n])
}
