// How a line is written.
ghost use Rattle.std.specs.Prelude.{◌≡◌, ◌+◌, ◌*◌, ◌^◌, ◌≤◌, length};
ghost use Rattle.text.specs.Writing.{HasRoom, Appends};
ghost use Rattle.record_form.specs.Lines.{line};

use text::writing::{Writer, numbers_length};

// How long a line is.
pub fn line_length(start: &[u8], numbers: &[i64]) -> usize
    requires few { length numbers.now ≤ 2 ^ 32 }
    requires short { length start.now ≤ 2 ^ 32 }
    ensures length { result ≡ length (line start.now numbers.now) }
    ensures short { result ≤ length start.now + 22 * length numbers.now + 1 }
{
    start.len() + numbers_length(numbers) + 1
}

// Writes a line; the caller sees that there is room.
pub fn write_line(writer: &mut Writer<'_>, start: &[u8], numbers: &[i64])
    requires { HasRoom writer.old (line start.now numbers.now) }
    ensures { Appends (line start.now numbers.now) writer.old writer.new }
{
    writer.bytes(start);
    writer.numbers(numbers);
    writer.byte(b'\n');
}
