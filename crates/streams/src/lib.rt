// Reading a stream into a lent buffer.
#![tactic(auto)]

ghost use Rattle.std.specs.Prelude.{◌≡◌, length, IfOk, OnErr};
ghost use Rattle.streams.specs.Counts.{IsPrefixLen};

use std::io;
use std::io::Read;

// Reads until the buffer is full or the input ends, and returns how many bytes it put at the start of the buffer. Where a read fails, its error is
// the answer, and the buffer may hold what was read before.
pub fn read_full<R: Read>(from: &mut R, buffer: &mut [u8]) -> io::Result<usize>
    ensures ok { IfOk result (λ n. IsPrefixLen n buffer.new) }
    ensures err { OnErr result (length buffer.new ≡ length buffer.old) }
{
    // No method of std stands for the loop: `read_exact` doesn't tell how many bytes came before the end, and `read_to_end` asks for a Vec (no heap).
    let mut done: usize = 0;
    while done < buffer.len() {
        let n = from.read(&mut buffer[done..])?;
        if n == 0 {
            break;
        }
        done += n;
    }
    Ok(done)
}
