// Text put into a lent output from its front on, a piece at a time.
ghost use Rattle.std.specs.Prelude.{◌≡◌, ◌+◌, ◌*◌, ◌<◌, ◌≤◌, [], ◌∷◌, length, decimal};
ghost use Rattle.text.specs.Printing.{last_digits, hex_digit, hex_of, HasRoom, Puts};

// A lent output, and the place in it where the next piece goes. Each piece asks for its room: memory is fixed.
// It is no `Display`, whose contract says nothing of a failed write: `put_answer` and its like may not fail.
#[derive(Drop)]
pub(crate) struct Writer<'a> {
    pub(crate) out: &'a mut [u8],
    pub(crate) at: usize,
}

impl Writer<'_> {
    pub(crate) fn byte(&mut self, byte: u8)
        requires { HasRoom 1 self.old }
        ensures { Puts 1 (byte ∷ []) self.old self.new }
    {
        self.out[self.at] = byte;
        self.at += 1;
    }

    pub(crate) fn text(&mut self, text: &[u8])
        requires { HasRoom (length text.now) self.old }
        ensures { Puts (length text.now) text.now self.old self.new }
    {
        let end = self.at + text.len();
        self.out[self.at..end].copy_from_slice(text);
        self.at = end;
    }

    // The last `width` decimal digits of n.
    pub(crate) fn last_digits(&mut self, width: usize, n: u64)
        requires { HasRoom width self.old }
        ensures { Puts width (last_digits width n) self.old self.new }
    {
        if width > 0 {
            self.last_digits(width - 1, n / 10);
            self.byte(b'0' + (n % 10) as u8);
        }
    }

    // The decimal digits of n, as many as there are.
    fn digits(&mut self, n: u64)
        requires { HasRoom (length (decimal n)) self.old }
        ensures { Puts (length (decimal n)) (decimal n) self.old self.new }
    {
        if n < 10 {
            return self.byte(b'0' + n as u8);
        }
        self.digits(n / 10);
        self.byte(b'0' + (n % 10) as u8)
    }

    pub(crate) fn decimal(&mut self, n: u64)
        requires { HasRoom 20 self.old }
        ensures { Puts 20 (decimal n) self.old self.new }
    {
        self.digits(n);
    }

    // The digits of all bytes.
    pub(crate) fn hex(&mut self, bytes: &[u8])
        requires { HasRoom (2 * length bytes.now) self.old }
        ensures { Puts (2 * length bytes.now) (hex_of bytes.now) self.old self.new }
    {
        for byte in bytes {
            self.byte(hex_digit(byte / 16));
            self.byte(hex_digit(byte % 16));
        }
    }
}

fn hex_digit(digit: u8) -> u8
    requires { digit < 16 }
    ensures { result ≡ hex_digit digit }
{
    if digit < 10 {
        b'0' + digit
    } else {
        b'a' + (digit - 10)
    }
}
