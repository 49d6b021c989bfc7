// Lines of an input that is read a buffer at a time: each is gathered in fixed memory.
ghost use Rattle.std.specs.Prelude.{◌≡◌, ℕ, ◌-◌, ◌<◌, ◌≤◌, true, false, Ok, length, take, drop, MatchOption, MatchResult};
ghost use Rattle.words.specs.Output.{put};
ghost use Rattle.text.specs.Lines.{first_input, current_of, refilled_of, left_of, kept_of, taken_of};
ghost use Rattle.text.specs.Inputs.{lines_taken, Refills};

use super::word::cut;
use std::io;
use std::io::Read;
use words::part;

// How far the input was read. (Two flags and no enum of states: `taken_of` and `refilled_of` have both.)
#[derive(Clone, Copy, Debug, PartialEq, Eq)]
pub struct Input {
    // the bytes of the buffer that are still to be taken
    pub from: usize,
    pub to: usize,
    // how many bytes of the line are kept
    pub length: usize,
    // the place of the line in the input, counted from 1
    pub place: u64,
    // whether the line is whole
    pub whole: bool,
    // whether nothing follows
    pub ended: bool,
}

// Before anything was read.
pub fn first_input() -> Input
    ensures { result ≡ first_input }
{
    Input {
        from: 0,
        to: 0,
        length: 0,
        place: 1,
        whole: false,
        ended: false,
    }
}

impl Input {
    // After a whole line the next one, of which nothing has come.
    fn current(self) -> Input
        ensures { result ≡ current_of self }
    {
        if !self.whole {
            return self;
        }
        Input {
            length: 0,
            place: self.place.wrapping_add(1),
            whole: false,
            ..self
        }
    }

    // After n bytes were read into the buffer. Where there are none, the input has ended, and its last line with it.
    pub fn refilled(self, n: usize) -> Input
        ensures { result ≡ refilled_of self n }
    {
        let current = self.current();
        Input {
            from: 0,
            to: n,
            whole: n == 0 && current.length > 0,
            ended: n == 0,
            ..current
        }
    }

    // The bytes of the buffer up to the next newline, behind those that the line has.
    #[tactic(auto, unfolding(words::specs::Bytes::slice))]
    pub fn take_line(self, buffer: &[u8], line: &mut [u8]) -> Input
        ensures taken { result ≡ taken_of self (left_of self buffer.now) (length line.old) }
        ensures kept { line.new ≡ put line.old (current_of self).length
            (kept_of self (left_of self buffer.now) (length line.old)) }
    {
        let current = self.current();
        let left = part(buffer, self.from, self.to);
        let (piece, rest) = cut(left, b'\n');
        let whole = rest.is_some();
        Input {
            from: self.from + piece.len() + usize::from(whole),
            length: current.length + keep(line, current.length, piece),
            whole,
            ..current
        }
    }
}

// An input that is read line by line.
#[derive(Drop)]
pub struct Lines {
    pub input: Input,
    buffer: [u8; 4096],
    // one byte more than the longest line, so that a longer one is seen
    line: [u8; 4097],
}

impl Lines {
    // Before anything was read.
    pub fn new() -> Lines
        ensures { result.input ≡ first_input }
    {
        Lines {
            input: first_input(),
            buffer: [0; 4096],
            line: [0; 4097],
        }
    }

    // What is left of the buffer is taken up to the end of a line; where nothing is left, the buffer is filled.
    pub fn read_on<R: Read>(&mut self, reader: &mut R) -> io::Result<()>
        ensures taken { self.old.input.from < self.old.input.to
            → (result ≡ Ok tt) × (self.new ≡ lines_taken self.old) × (reader.new ≡ reader.old) }
        ensures read { self.old.input.to ≤ self.old.input.from → MatchResult result
            (λ _. (n : ℕ) × Refills n self.old self.new (R.remaining reader.old) (R.remaining reader.new))
            (λ _. (self.new.input ≡ self.old.input) × (self.new.line ≡ self.old.line)) }
    {
        if self.input.from < self.input.to {
            self.input = self.input.take_line(&self.buffer, &mut self.line);
            return Ok(());
        }
        let n = reader.read(&mut self.buffer)?;
        self.input = self.input.refilled(n);
        Ok(())
    }

    // The line, without its newline, where it is whole.
    pub fn whole(&self) -> Option<&[u8]>
        ensures { MatchOption result (self.now.input.whole ≡ false) (λ line.
            (self.now.input.whole ≡ true) × (line.now ≡ take self.now.input.length self.now.line)) }
    {
        if !self.input.whole {
            return None;
        }
        Some(front(&self.line, self.input.length))
    }
}

// The bytes behind the n that the line has, as many as it has room for, and how many these are. (Places, here and below:
// `kept_of` is by places.)
fn keep(line: &mut [u8], n: usize, bytes: &[u8]) -> usize
    ensures kept { line.new ≡ put line.old n (take (length line.old - n) bytes.now) }
    ensures count { result ≡ length (take (length line.old - n) bytes.now) }
{
    let count = bytes.len().min(line.len().saturating_sub(n));
    if count > 0 {
        line[n..n + count].copy_from_slice(&bytes[..count]);
    }
    count
}

// The first n bytes, or as many as there are.
pub fn front(s: &[u8], n: usize) -> &[u8]
    ensures { result.now ≡ take n s.now }
{
    &s[..n.min(s.len())]
}
