// Writing: a record over the front of a lent output.
ghost use Rattle.std.specs.Prelude.{◌≡◌, ◌+◌, ◌*◌, ◌≤◌, length};
ghost use Rattle.words.specs.Output.{put};
ghost use Rattle.errors.specs.Writing.{are_zero, is_valid, date_bytes, words_bytes, bytes_of, WriteSays};

use super::ErrorRecord;
use super::bcd::digits;
use words::{copy, put_word};

fn are_zero(details: &[u32]) -> bool
    ensures { result ≡ are_zero details.now }
{
    details.iter().all(|v| *v == 0)
}

// The details, from byte 12 on.
#[tactic(auto, using(crate::proofs::Put::start, crate::proofs::Put::put_turn))]
fn put_details(out: &mut [u8], details: &[u32])
    requires { 12 + 4 * length details.now ≤ length out.old }
    ensures { out.new ≡ put out.old 12 (words_bytes details.now) }
{
    for (k, detail) in details.iter().enumerate() {
        put_word(out, 12 + 4 * k, *detail);
    }
}

impl ErrorRecord {
    // Whether the record can be written.
    #[tactic(auto, unfolding(crate::specs::Writing::is_valid))]
    pub fn is_valid(&self) -> bool
        ensures { result ≡ is_valid self.now }
    {
        self.date.year <= 9999
            && self.date.is_valid()
            && self.time.is_valid()
            && self.weekday <= 6
            && self.count <= 10
            && are_zero(&self.details[self.count as usize..])
    }

    // Date and time.
    #[tactic(auto, unfolding(crate::specs::Writing::date_bytes))]
    fn date_bytes(&self) -> [u8; 8]
        ensures { result ≡ date_bytes self.now }
    {
        [
            digits(self.date.year / 100),
            digits(self.date.year % 100),
            digits(self.date.month.into()),
            digits(self.date.day.into()),
            digits(self.time.hour.into()),
            digits(self.time.minute.into()),
            digits(self.time.second.into()),
            digits(self.weekday.into()),
        ]
    }

    // The record over the front of out.
    #[tactic(auto, using(crate::proofs::Put::puts))]
    fn put(&self, out: &mut [u8])
        requires { (self.now.count ≤ 10) × (16 + 4 * self.now.count ≤ length out.old) }
        ensures { out.new ≡ put out.old 0 (bytes_of self.now) }
    {
        let details = &self.details[..self.count as usize];
        copy(&self.date_bytes(), out);
        put_word(out, 8, self.count.into());
        put_details(out, details);
        put_word(out, 12 + 4 * details.len(), self.more.into());
    }

    // The record over the front of out, and its length; nothing is written where it is not valid or out is too short.
    pub fn write_record(&self, out: &mut [u8]) -> Option<usize>
        ensures { WriteSays self.now out.old out.new result }
    {
        let length = 16 + 4 * self.count as usize;
        if !self.is_valid() || out.len() < length {
            return None;
        }
        self.put(out);
        Some(length)
    }
}
