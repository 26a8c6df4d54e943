// The bytes of a reader, in a lent buffer.
#![tactic(auto)]

ghost use Rattle.std.specs.Prelude.{◌≤◌, ◌<◌, length, take, IfOk, OnErr};
ghost use Rattle.std.specs.Io.KnownBytes.{Consumes, IsAtEnd};
ghost use Rattle.input.specs.Lost.{Lost};

use std::io;
use std::io::Read;

// Reads until the buffer is full or the input ends, and gives how many bytes it has put at the buffer's start. Where it gives fewer
// than the buffer has room for, the input is at its end. Where a read fails, what the reader has lost stands at the buffer's start.
pub fn read_full<R: Read>(reader: &mut R, buffer: &mut [u8]) -> io::Result<usize>
    ensures within { IfOk result (λ got. got ≤ length buffer.new) }
    ensures bytes { IfOk result (λ got. Consumes (R.remaining reader.old) (R.remaining reader.new) (take got buffer.new)) }
    ensures end { IfOk result (λ got. got < length buffer.new → IsAtEnd (R.remaining reader.new)) }
    ensures err { OnErr result (Lost (R.remaining reader.old) (R.remaining reader.new) buffer.new) }
{
    // No call of std does this: `read_exact` and `io::copy` promise nothing where a read fails, and `read_to_end` asks for a heap.
    let mut got: usize = 0;
    while got < buffer.len() {
        let count = reader.read(&mut buffer[got..])?;
        if count == 0 {
            break;
        }
        got += count;
    }
    Ok(got)
}
