// Standard input, as far as it is read.
ghost use Rattle.std.specs.Prelude.{◌≤◌, length, IfOk};

use std::io;
use std::io::Read;

// Reads until the input ends or the buffer is full, and answers how many bytes were read. Each read offers all the room that is left:
// an input that keeps messages apart loses what of a message is not taken at once, and the library's `read_to_end` offers little at
// first. Nor does that say how much it reads.
pub(crate) fn read_input(rt: &HostRuntime, buffer: &mut [u8]) -> io::Result<usize>
    ensures { IfOk result (λ n. n ≤ length buffer.new) }
{
    let mut stdin = rt.stdin();
    let mut filled = 0;
    while filled < buffer.len() {
        let got = stdin.read(&mut buffer[filled..])?;
        if got == 0 {
            break;
        }
        filled += got;
    }
    Ok(filled)
}
