// The answer to a call as a line of text, over the front of a lent output.
ghost use Rattle.std.specs.Prelude.{◌≡◌, ◌+◌, ◌*◌, length, drop, decimal};
ghost use Rattle.std.specs.List.{list_all};
ghost use Rattle.text.specs.Printing.{hex_text, word, entry_text, mark_text, age_text, end_text, is_fill};
ghost use Rattle.text.specs.Printing.{answer_text, check_text, wrong_text, HasRoom, Puts, Written};

use super::put::Writer;

// What an output is filled with before it is lent.
pub const FILL: u8 = 0xEE;

// What a call answered.
#[derive(Clone, Copy, Debug, PartialEq, Eq)]
pub struct Answer {
    pub number: u8,
    // the entry that the answer names, if it names one
    pub entry: Option<usize>,
    pub count: usize,
    pub mark: bool,
    // the age of a shown value in ticks, where one is told
    pub age: Option<u64>,
    // whether a byte past those written was changed
    pub dirty: bool,
}

impl Writer<'_> {
    // A number and a space.
    fn number(&mut self, n: u64)
        requires { HasRoom 21 self.old }
        ensures { Puts 21 (word (decimal n)) self.old self.new }
    {
        self.decimal(n);
        self.byte(b' ');
    }

    // An entry and a space.
    #[tactic(auto, using(crate::proofs::Pieces::within), unfolding(crate::specs::Printing::word, crate::specs::Printing::entry_text))]
    fn entry(&mut self, entry: Option<usize>)
        requires { HasRoom 21 self.old }
        ensures { Puts 21 (word (entry_text entry)) self.old self.new }
    {
        match entry {
            None => self.text(b"- "),
            Some(entry) => self.number(entry as u64),
        }
    }

    // A mark and a space.
    #[tactic(auto, using(crate::proofs::Pieces::within), unfolding(crate::specs::Printing::word, crate::specs::Printing::mark_text))]
    fn mark(&mut self, mark: bool)
        requires { HasRoom 2 self.old }
        ensures { Puts 2 (word (mark_text mark)) self.old self.new }
    {
        if mark {
            self.text(b"1 ")
        } else {
            self.text(b"0 ")
        }
    }

    fn bytes(&mut self, bytes: &[u8])
        requires { HasRoom (1 + 2 * length bytes.now) self.old }
        ensures { Puts (1 + 2 * length bytes.now) (hex_text bytes.now) self.old self.new }
    {
        if bytes.is_empty() {
            self.text(b"-")
        } else {
            self.hex(bytes)
        }
    }

    fn age(&mut self, age: Option<u64>)
        requires { HasRoom 21 self.old }
        ensures { Puts 21 (age_text age) self.old self.new }
    {
        if let Some(ticks) = age {
            self.byte(b' ');
            self.decimal(ticks);
        }
    }

    // The end of a line.
    #[tactic(auto, using(crate::proofs::Pieces::within), unfolding(crate::specs::Printing::end_text))]
    fn end(&mut self, dirty: bool)
        requires { HasRoom 7 self.old }
        ensures { Puts 7 (end_text dirty) self.old self.new }
    {
        if dirty {
            self.text(b" DIRTY\n")
        } else {
            self.text(b"\n")
        }
    }

    // All pieces of an answer.
    fn answer(&mut self, answer: Answer, written: &[u8])
        requires { HasRoom (101 + 2 * length written.now) self.old }
        ensures { Puts (101 + 2 * length written.now) (answer_text answer written.now)
            self.old self.new }
    {
        self.number(answer.number as u64);
        self.entry(answer.entry);
        self.number(answer.count as u64);
        self.mark(answer.mark);
        self.bytes(written);
        self.age(answer.age);
        self.end(answer.dirty);
    }
}

// (The counts are no Options: `Written`, which every put_ has, is of a count.)
// The answer to a call over the front of out, and its length. Where out is shorter than 101 bytes and two for each
// byte written, nothing is put and the count is 0.
pub fn put_answer(out: &mut [u8], answer: Answer, written: &[u8]) -> usize
    ensures { Written (101 + 2 * length written.now) (answer_text answer written.now)
        out.old out.new result }
{
    let room = out.len();
    if room < 101 || (room - 101) / 2 < written.len() {
        return 0;
    }
    let mut line = Writer { out, at: 0 };
    line.answer(answer, written);
    line.at
}

// The answer to the frame check alone over the front of out, and its length. Where out is shorter than 24 bytes,
// nothing is put and the count is 0.
pub fn put_check(out: &mut [u8], number: u8) -> usize
    ensures { Written 24 (check_text number) out.old out.new result }
{
    if out.len() < 24 {
        return 0;
    }
    let mut line = Writer { out, at: 0 };
    line.decimal(number as u64);
    line.byte(b'\n');
    line.at
}

// The answer to the n-th line where it is no call, over the front of out, and its length. Where out is shorter than
// 24 bytes, nothing is put and the count is 0.
pub fn put_wrong(out: &mut [u8], n: u64) -> usize
    ensures { Written 24 (wrong_text n) out.old out.new result }
{
    if out.len() < 24 {
        return 0;
    }
    let mut line = Writer { out, at: 0 };
    line.text(b"? ");
    line.decimal(n);
    line.byte(b'\n');
    line.at
}

// What follows the first n bytes.
fn past(s: &[u8], n: usize) -> &[u8]
    ensures { result.now ≡ drop n s.now }
{
    &s[n.min(s.len())..]
}

// Whether all bytes from `from` on are as before the call. (By fold, as hex's are_digits. bytes and from stay two: the clause
// has both.)
pub fn is_clean(bytes: &[u8], from: usize) -> bool
    ensures { result ≡ list_all is_fill (drop from bytes.now) }
{
    past(bytes, from)
        .iter()
        .fold(true, |clean, b| clean & (*b == FILL))
}
