// A printed line, by value, and the texts that it is made of.
ghost use Rattle.std.specs.Prelude.{◌≡◌, ◌/◌, ◌<◌, [], ◌∷◌};
ghost use Rattle.playback.specs.Line.{line_of, push, append, Printed};
ghost use Rattle.playback.specs.Text.{digit, decimal, hex, next_text, record_text, bad_text, cut_text};

use fragments::Lba;
use protocol::Sense;

// A line's bytes, zeros after them, and how many there are: in fixed memory, and made by functions that cannot fail, which `Display` may.
#[derive(Clone, Copy)]
pub struct Line {
    pub bytes: [u8; Line::LIMIT],
    pub length: usize,
}

// The sign of a hex digit, letters in capitals.
fn sign(value: u8) -> u8
    requires { value < 0x10 }
    ensures { result ≡ digit value }
{
    if value < 10 {
        return b'0' + value;
    }
    b'A' + (value - 10)
}

impl Line {
    // More than any line has: three numbers of twenty digits at most, three bytes and six signs between and after them.
    pub const LIMIT: usize = 80;

    // An empty line.
    pub(crate) fn new() -> Line
        ensures { result ≡ line_of [] }
    {
        let bytes = [0u8; Line::LIMIT];
        Line { bytes, length: 0 }
    }

    // One byte more. A full line stays as it is; none gets so long.
    fn push(mut self, byte: u8) -> Line
        ensures { result ≡ push self byte }
    {
        let at = self.length;
        if at < Line::LIMIT {
            self.bytes[at] = byte;
            self.length = at + 1;
            return self;
        }
        self
    }

    // A number's decimal digits.
    fn decimal(self, number: u64) -> Line
        ensures { result ≡ append self (decimal number) }
    {
        if number < 10 {
            return self.push(sign(number as u8));
        }
        self.decimal(number / 10).push(sign((number % 10) as u8))
    }

    // A byte's two hex digits.
    fn hex(self, byte: u8) -> Line
        ensures { result ≡ append self (hex byte) }
    {
        self.push(sign(byte / 0x10)).push(sign(byte % 0x10))
    }

    // A space.
    fn space(self) -> Line
        ensures { result ≡ append self (0x20 ∷ []) }
    {
        self.push(b' ')
    }

    // The tail's next writable address, or that there is no tail.
    fn next(self, next: Option<Lba>) -> Line
        ensures { result ≡ append self (next_text next) }
    {
        match next {
            Some(address) => self.decimal(address.0),
            None => self.push(b'-'),
        }
    }

    // A record's line: its number, the opcode, and the sense and the tail's next writable address after it.
    pub fn of_record(number: u64, opcode: u8, sense: Sense, next: Option<Lba>) -> Line
        ensures { Printed (record_text number opcode sense next) result }
    {
        let command = Line::new().decimal(number).space().hex(opcode).space();
        let key = command.decimal(u64::from(sense.key)).space();
        let codes = key.hex(sense.asc).space().hex(sense.ascq).space();
        codes.next(next).push(b'\n')
    }

    // The last line where a mark is wrong.
    pub fn bad(number: u64) -> Line
        ensures { Printed (bad_text number) result }
    {
        Line::new()
            .decimal(number)
            .space()
            .push(b'b')
            .push(b'a')
            .push(b'd')
            .push(b'\n')
    }

    // The last line where the trace is cut short.
    pub fn cut(number: u64) -> Line
        ensures { Printed (cut_text number) result }
    {
        Line::new()
            .decimal(number)
            .space()
            .push(b'c')
            .push(b'u')
            .push(b't')
            .push(b'\n')
    }
}
