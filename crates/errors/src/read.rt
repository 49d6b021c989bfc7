// Reading: whether bytes are a record, and what they say. (Functions of bytes and no type of them: whether they are a record
// is what is asked.)
ghost use Rattle.std.specs.Prelude.{◌≡◌, ◌≤◌};
ghost use Rattle.errors.specs.Reading.{decimal_at, year_in, date_in, time_in, count_in, details_in, flag_in, more_follows};
ghost use Rattle.errors.specs.Reading.{has_digits, has_count, is_record, record_of, decoded_of};

use super::bcd::{decimal, is_decimal};
use super::{Date, ErrorRecord, Time};
use std::array;
use words::{byte_at, word_at};

fn decimal_at(bytes: &[u8], k: usize) -> u8
    ensures { result ≡ decimal_at bytes.now k }
{
    decimal(byte_at(bytes, k))
}

fn year_in(bytes: &[u8]) -> u16
    ensures { result ≡ year_in bytes.now }
{
    100 * u16::from(decimal_at(bytes, 0)) + u16::from(decimal_at(bytes, 1))
}

fn date_in(bytes: &[u8]) -> Date
    ensures { result ≡ date_in bytes.now }
{
    Date {
        year: year_in(bytes),
        month: decimal_at(bytes, 2),
        day: decimal_at(bytes, 3),
    }
}

fn time_in(bytes: &[u8]) -> Time
    ensures { result ≡ time_in bytes.now }
{
    Time {
        hour: decimal_at(bytes, 4),
        minute: decimal_at(bytes, 5),
        second: decimal_at(bytes, 6),
    }
}

// The last word; of fewer than four bytes the one at 0.
fn flag_in(bytes: &[u8]) -> u32
    ensures { result ≡ flag_in bytes.now }
{
    word_at(bytes, bytes.len().saturating_sub(4))
}

// Whether more follow, should the bytes be a record.
#[tactic(auto, unfolding(crate::specs::Reading::more_follows))]
pub fn more_follows(bytes: &[u8]) -> bool
    ensures { result ≡ more_follows bytes.now }
{
    flag_in(bytes) == 1
}

// Whether date and time are decimal digits.
#[tactic(auto, unfolding(crate::specs::Reading::has_digits))]
fn has_digits(bytes: &[u8]) -> bool
    ensures { result ≡ has_digits bytes.now }
{
    (0..8).all(|k| is_decimal(byte_at(bytes, k)))
}

// Whether the count is up to 10 and there are as many details.
#[tactic(auto, unfolding(crate::specs::Reading::has_count))]
fn has_count(bytes: &[u8]) -> bool
    ensures { result ≡ has_count bytes.now }
{
    let n = word_at(bytes, 8);
    n <= 10 && bytes.len() == 16 + 4 * n as usize
}

// Whether the bytes are a record; document 02's number 20 stands for all others.
#[tactic(auto, unfolding(crate::specs::Reading::is_record))]
pub fn is_record(bytes: &[u8]) -> bool
    ensures { result ≡ is_record bytes.now }
{
    has_digits(bytes)
        && date_in(bytes).is_valid()
        && time_in(bytes).is_valid()
        && decimal_at(bytes, 7) <= 6
        && has_count(bytes)
        && flag_in(bytes) <= 1
}

// The details, and zeros up to ten. (That there are at most ten is asked here and twice more: a type for it would be taken
// apart at once, which is no plainer.)
fn details_in(bytes: &[u8], n: usize) -> [u32; 10]
    requires { n ≤ 10 }
    ensures { result ≡ details_in bytes.now n }
{
    array::from_fn(|k| if k < n { word_at(bytes, 12 + 4 * k) } else { 0 })
}

// What bytes say whose count is up to 10.
#[tactic(auto, unfolding(crate::specs::Reading::record_of))]
fn record_of(bytes: &[u8]) -> ErrorRecord
    requires { count_in bytes.now ≤ 10 }
    ensures { result ≡ record_of bytes.now }
{
    let n = word_at(bytes, 8);
    ErrorRecord {
        date: date_in(bytes),
        time: time_in(bytes),
        weekday: decimal_at(bytes, 7),
        count: n as u8,
        details: details_in(bytes, n as usize),
        more: more_follows(bytes),
    }
}

// The record that the bytes are, if they are one.
#[tactic(auto, using(crate::proofs::Ranges::count_le), unfolding(crate::specs::Reading::decoded_of))]
pub fn read_record(bytes: &[u8]) -> Option<ErrorRecord>
    ensures { result ≡ decoded_of bytes.now }
{
    is_record(bytes).then(|| record_of(bytes))
}
