// How old a shown value can be, as a line of text over the front of a lent output.
ghost use Rattle.std.specs.Prelude.{◌+◌, ◌^◌, ◌<◌, length};
ghost use Rattle.text.specs.Printing.{HasRoom, Puts, Written};
ghost use Rattle.text.specs.Bounds.{milliseconds_text, beside_text, number_text, ticks_text, role_text, connection_text};
ghost use Rattle.text.specs.Bounds.{times_text, bound_text, bounds_text};

use super::put::Writer;
use endpoint::Settings;

// A time, or a bound on ages: three times of 32 bits and 10 at most.
#[derive(Clone, Copy)]
struct Ticks {
    count: u64,
    ghost bounded: { count < 2 ^ 34 },
}

impl Writer<'_> {
    // Ticks in milliseconds.
    fn milliseconds(&mut self, ticks: Ticks)
        requires { HasRoom 24 self.old }
        ensures { Puts 24 (milliseconds_text ticks.count) self.old self.new }
    {
        self.decimal(128 * ticks.count / 1000);
        self.byte(b'.');
        self.last_digits(3, 128 * ticks.count);
    }

    // The same beside the ticks.
    fn beside(&mut self, ticks: Ticks)
        requires { HasRoom 30 self.old }
        ensures { Puts 30 (beside_text ticks.count) self.old self.new }
    {
        self.text(b" (");
        self.milliseconds(ticks);
        self.text(b" ms)");
    }

    // A name and its number.
    fn named(&mut self, name: &[u8], n: u64)
        requires { HasRoom (length name.now + 20) self.old }
        ensures { Puts (length name.now + 20) (number_text name.now n) self.old self.new }
    {
        self.text(name);
        self.decimal(n);
    }

    // A name and its ticks.
    fn time(&mut self, name: &[u8], ticks: u32)
        requires { HasRoom (length name.now + 50) self.old }
        ensures { Puts (length name.now + 50) (ticks_text name.now ticks) self.old self.new }
    {
        let count = ticks as u64;
        self.named(name, count);
        self.beside(Ticks { count });
    }

    #[tactic(auto, using(crate::proofs::Pieces::within), unfolding(crate::specs::Bounds::role_text))]
    fn role(&mut self, slave: bool)
        requires { HasRoom 7 self.old }
        ensures { Puts 7 (role_text slave) self.old self.new }
    {
        if slave {
            self.text(b" slave")
        } else {
            self.text(b" master")
        }
    }

    // CID, role and widths.
    fn connection(&mut self, s: Settings)
        requires { HasRoom 61 self.old }
        ensures { Puts 61 (connection_text s) self.old self.new }
    {
        self.hex(&s.connection.to_be_bytes());
        self.role(s.slave);
        self.named(b" M=", s.masterwords as u64);
        self.named(b" S=", s.slavewords as u64);
    }

    // I, R and A.
    fn times(&mut self, s: Settings)
        requires { HasRoom 159 self.old }
        ensures { Puts 159 (times_text s) self.old self.new }
    {
        self.time(b" I=", s.interval);
        self.time(b" R=", s.roundtrip);
        self.time(b" A=", s.age);
    }

    fn bound(&mut self, ticks: Ticks)
        requires { HasRoom 88 self.old }
        ensures { Puts 88 (bound_text ticks.count) self.old self.new }
    {
        self.named(b": a shown value is at most ", ticks.count);
        self.text(b" ticks");
        self.beside(ticks);
        self.text(b" old\n");
    }
}

// A connection's settings and the bound on the age of a shown value at this end, over the front of out, and the text's
// length. Where out is shorter than 308 bytes, nothing is put and the count is 0. (No Option: `Written` is of a count.)
pub fn put_bounds(out: &mut [u8], s: Settings) -> usize
    ensures { Written 308 (bounds_text s) out.old out.new result }
{
    if out.len() < 308 {
        return 0;
    }
    let mut line = Writer { out, at: 0 };
    line.connection(s);
    line.times(s);
    line.bound(Ticks { count: s.bound() });
    line.at
}
