// Writing bytes and numbers into bytes that are lent.
ghost use Rattle.std.specs.Prelude.{◌≡◌, ◌+◌, ◌*◌, ◌^◌, ◌≤◌, [], ◌∷◌, length};
ghost use Rattle.text.specs.Fields.{decimal};
ghost use Rattle.text.specs.Writing.{HasRoom, Appends, spaced, written};

use itoa::Buffer;

// Bytes that are lent, and the offset up to which they are written. Each call writes from there on; the caller sees that
// there is room.
#[derive(Drop)]
pub struct Writer<'a> {
    bytes: &'a mut [u8],
    pub at: usize,
}

// How long the decimal text of a number is.
pub fn decimal_length(number: i64) -> usize
    ensures { result ≡ length (decimal number) }
{
    Buffer::new().format(number).len()
}

// How long the text of a list of numbers is, with a space before each.
pub fn numbers_length(numbers: &[i64]) -> usize
    requires { length numbers.now ≤ 2 ^ 32 }
    ensures length { result ≡ length (spaced numbers.now) }
    ensures short { result ≤ 22 * length numbers.now }
{
    let mut count = 0;
    for number in numbers {
        count += 1 + decimal_length(*number);
    }
    count
}

impl<'a> Writer<'a> {
    // At the start of bytes.
    pub fn new(bytes: &'a mut [u8]) -> Writer<'a>
        ensures same { result.bytes.ghost_name ≡ bytes.entry.ghost_name }
        ensures bytes { result.bytes.now ≡ bytes.old }
        ensures at { result.at ≡ 0 }
    {
        Writer { bytes, at: 0 }
    }

    // Writes bytes as they are.
    pub fn bytes(&mut self, text: &[u8])
        requires { HasRoom self.old text.now }
        ensures { Appends text.now self.old self.new }
    {
        let next = self.at + text.len();
        self.bytes[self.at..next].copy_from_slice(text);
        self.at = next;
    }

    // Writes one byte.
    pub fn byte(&mut self, byte: u8)
        requires { HasRoom self.old (byte ∷ []) }
        ensures { Appends (byte ∷ []) self.old self.new }
    {
        self.bytes[self.at] = byte;
        self.at += 1;
    }

    // Writes the decimal text of a number.
    pub fn decimal(&mut self, number: i64)
        requires { HasRoom self.old (decimal number) }
        ensures { Appends (decimal number) self.old self.new }
    {
        let mut buffer = Buffer::new();
        self.bytes(buffer.format(number).as_bytes());
    }

    // Writes a space and a number.
    fn spaced(&mut self, number: i64)
        requires { HasRoom self.old (32 ∷ decimal number) }
        ensures { Appends (32 ∷ decimal number) self.old self.new }
    {
        self.byte(b' ');
        self.decimal(number);
    }

    // Writes a list of numbers, with a space before each.
    pub fn numbers(&mut self, numbers: &[i64])
        requires { HasRoom self.old (spaced numbers.now) }
        ensures { Appends (spaced numbers.now) self.old self.new }
    {
        for number in numbers {
            self.spaced(*number);
        }
    }
}
