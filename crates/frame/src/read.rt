// Reading: the frame check, and the fields of a frame's bytes.
ghost use Rattle.std.specs.Prelude.{◌≡◌, ◌≤◌, ◌<◌, length};
ghost use Rattle.frame.specs.Control.{bit};
ghost use Rattle.frame.specs.Reading.{is_frame_length, has_check_word, fields_of, fields_in, is_formed};
ghost use Rattle.frame.specs.Reading.{reading_of_copies, reading_of, fault_number, number_of};
ghost use Rattle.frame.specs.Reading.{connection_in, span_of};

use super::{Command, Fault, Fields, Frame, Head, LONGEST_FRAME, Span};
use words::{same, word_at};

// 56, 64, .. 248. (Its twin is write::is_body_length: one function for both would be a line too, and take three numbers.)
fn is_frame_length(n: usize) -> bool
    ensures { result ≡ is_frame_length n }
{
    (56..=LONGEST_FRAME).contains(&n) && n % 8 == 0
}

#[tactic(auto, unfolding(crate::specs::Reading::has_check_word))]
fn has_check_word(a: &[u8]) -> bool
    requires { 4 ≤ length a.now }
    ensures { result ≡ has_check_word a.now }
{
    let end = a.len() - 4;
    crc::crc32c(&a[..end]) == word_at(a, end)
}

fn bit(i: u32, v: u32) -> bool
    requires { i < 32 }
    ensures { result ≡ bit i v }
{
    v >> i & 1 == 1
}

// The fields that the words say.
#[tactic(auto, using(crate::proofs::Digits::listed_or_refresh))]
fn fields_of(h: Head) -> Fields
    ensures { result ≡ fields_of h.control h.connection h.time h.carry }
{
    Fields {
        command: Command::try_from(h.control >> 24).unwrap_or(Command::Refresh),
        ack: bit(23, h.control),
        busy: bit(22, h.control),
        error: bit(21, h.control),
        sequence: bit(20, h.control),
        application: bit(18, h.control),
        subconnection: bit(16, h.control).then_some((h.control & 0xFFFF) as u16),
        connection: h.connection,
        timestamp: (u64::from(h.carry) << 16) + u64::from(h.time >> 16),
        baseline: (h.time & 0xFFFF) as u16,
    }
}

// The fields of a SubPDU.
#[tactic(auto, unfolding(crate::specs::Reading::fields_in))]
fn fields_in(a: &[u8]) -> Fields
    ensures { result ≡ fields_in a.now }
{
    fields_of(Head {
        control: word_at(a, 0),
        connection: word_at(a, 4),
        time: word_at(a, 8),
        carry: word_at(a, 12),
    })
}

fn is_formed(control: u32, reserved: u32, f: Fields) -> bool
    ensures { result ≡ is_formed control reserved f }
{
    control == f.control() && f.has_form() && reserved == 0
}

// What two halves of one length hold.
#[tactic(auto, unfolding(crate::specs::Reading::reading_of_copies))]
fn read_copies(a: &[u8], b: &[u8]) -> Result<Frame, Fault>
    requires { 4 ≤ length a.now }
    ensures { result ≡ reading_of_copies a.now b.now }
{
    if !same(a, b) {
        return Err(Fault::Copies);
    }
    if !has_check_word(a) {
        return Err(Fault::CheckWord);
    }
    let fields = fields_in(a);
    if !is_formed(word_at(a, 0), word_at(a, 16), fields) {
        return Err(Fault::Form);
    }
    Ok(Frame {
        fields,
        start: 20,
        end: a.len() - 4,
    })
}

// The frame that the bytes are, or the first fault.
#[tactic(auto, unfolding(crate::specs::Reading::reading_of))]
pub fn read_frame(bytes: &[u8]) -> Result<Frame, Fault>
    ensures { result ≡ reading_of bytes.now }
{
    if !is_frame_length(bytes.len()) {
        return Err(Fault::Length);
    }
    let (a, b) = bytes.split_at(bytes.len() / 2);
    read_copies(a, b)
}

// The CID, should the bytes be a frame.
pub fn connection_in(bytes: &[u8]) -> u32
    ensures { result ≡ connection_in bytes.now }
{
    word_at(bytes, 4)
}

// Where the body lies in n bytes, should they be a frame. (No Option: `span_of` is empty where they cannot be.)
pub fn body_span(n: usize) -> Span
    ensures { (result ≡ span_of n) × (result.start ≤ result.end) × (result.end ≤ n) }
{
    if is_frame_length(n) {
        Span {
            start: 20,
            end: n / 2 - 4,
        }
    } else {
        Span { start: 0, end: 0 }
    }
}

// Document 01's numbers.
impl From<Fault> for u8 {
    ghost from_gives = { λ fault n. n ≡ fault_number fault };

    fn from(fault: Fault) -> u8 {
        match fault {
            Fault::Length => 4,
            Fault::Copies => 5,
            Fault::CheckWord => 6,
            Fault::Form => 7,
        }
    }
}

// The frame check for the bus card's driver, in C: 0, or the number of the first fault (include/folderpink.h). The crate
// frame_c exports it.
pub fn folderpink_check_frame(bytes: &[u8]) -> u8
    ensures { result ≡ number_of (reading_of bytes.now) }
{
    match read_frame(bytes) {
        Ok(_) => 0,
        Err(fault) => fault.into(),
    }
}
