// Writing: a frame over the front of a lent output.
ghost use Rattle.std.specs.Prelude.{◌≡◌, ◌+◌, ◌*◌, ◌≤◌, length};
ghost use Rattle.words.specs.Output.{put};
ghost use Rattle.frame.specs.Writing.{is_body_length, is_writable, head_bytes, head_of, frame_of, WriteSays, HeadSays};

use super::{Fields, Head, TIMESTAMP_MODULUS};
use words::put_word;

// Whether S-Data can have n bytes: 1 to 25 words.
pub fn is_body_length(n: usize) -> bool
    ensures { result ≡ is_body_length n }
{
    (4..=100).contains(&n) && n % 4 == 0
}

// Whether fields can be written with a body of n bytes.
#[tactic(auto, unfolding(crate::specs::Writing::is_writable))]
fn is_writable(f: Fields, n: usize) -> bool
    ensures { result ≡ is_writable f n }
{
    f.has_form() && f.timestamp < TIMESTAMP_MODULUS && is_body_length(n)
}

// The words of the fields.
pub fn head_of(f: Fields) -> Head
    ensures { result ≡ head_of f }
{
    Head {
        control: f.control(),
        connection: f.connection,
        time: (((f.timestamp & 0xFFFF) as u32) << 16) + u32::from(f.baseline),
        carry: (f.timestamp >> 16 & 0xFFFF_FFFF) as u32,
    }
}

// The words of a SubPDU and its body, over the front of out.
fn put_head(out: &mut [u8], h: Head, body: &[u8])
    requires { 20 + length body.now ≤ length out.old }
    ensures { out.new
        ≡ put out.old 0
        (head_bytes h.control h.connection h.time h.carry body.now) }
{
    put_word(out, 0, h.control);
    put_word(out, 4, h.connection);
    put_word(out, 8, h.time);
    put_word(out, 12, h.carry);
    put_word(out, 16, 0);
    out[20..20 + body.len()].copy_from_slice(body);
}

// Both SubPDUs over the front of out: the second is a copy of the first.
fn put_copies(out: &mut [u8], h: Head, body: &[u8])
    requires { 48 + 2 * length body.now ≤ length out.old }
    ensures { out.new ≡ put out.old 0 (frame_of h body.now) }
{
    let n = 20 + body.len();
    put_head(out, h, body);
    let word = crc::crc32c(&out[..n]);
    put_word(out, n, word);
    let (first, second) = out.split_at_mut(n + 4);
    second[..first.len()].copy_from_slice(first);
}

// The frame of the words and the body over the front of out, and its length. Where the body is not of 1 to 25 words or
// out is too short, nothing is written and the answer is 0. (No Option: C is told this count, and 0 is nothing written.)
#[tactic(auto, using(crate::proofs::Lengths::length_frame_of), unfolding(crate::specs::Writing::written_from, words::specs::Output::over, words::specs::Output::put))]
pub fn write_head(h: Head, body: &[u8], out: &mut [u8]) -> usize
    ensures { HeadSays h body.now out.old out.new result }
{
    if !is_body_length(body.len()) {
        return 0;
    }
    let length = 48 + 2 * body.len();
    if out.len() < length {
        return 0;
    }
    put_copies(out, h, body);
    length
}

// The frame of the fields and the body over the front of out, and its length. Where the fields cannot be written or
// out is too short, nothing is written and the answer is 0. (No Option: C is told this count, and 0 is nothing written.)
#[tactic(auto, using(crate::proofs::Written::head_frame, crate::proofs::Lengths::can_be_written), unfolding(crate::specs::Writing::written_from, crate::specs::Writing::written_of, words::specs::Output::over))]
pub fn write_frame(fields: Fields, body: &[u8], out: &mut [u8]) -> usize
    ensures { WriteSays fields body.now out.old out.new result }
{
    if !is_writable(fields, body.len()) {
        return 0;
    }
    write_head(head_of(fields), body, out)
}
