// Hexadecimal digits: bytes and settings words, tested and read.
ghost use Rattle.std.specs.Prelude.{◌≡◌, ◌+◌, ◌*◌, ◌≤◌, ◌<◌, ℕ, length, drop, slice_index_or};
ghost use Rattle.std.specs.List.{list_all};
ghost use Rattle.text.specs.Printing.{Written};
ghost use Rattle.text.specs.Reading.{is_hex_digit, is_hex, is_frame, digit_of, byte_at, byte_count, bytes_from};
ghost use Rattle.text.specs.Reading.{word_at, setting_count, settings_in, is_setting_at, are_settings, is_load, is_word};

fn is_hex_digit(b: u8) -> bool
    ensures { result ≡ is_hex_digit b }
{
    matches!(b, b'0'..=b'9' | b'a'..=b'f')
}

// (By fold: `all` leaves at the first byte that is none, so that no step takes several; a line of 4,096 bytes took eleven
// times as long.)
fn are_digits(s: &[u8]) -> bool
    ensures { result ≡ list_all is_hex_digit s.now }
{
    s.iter().fold(true, |are, b| are & is_hex_digit(*b))
}

// Whether a text is bytes: pairs of digits, or `-` for none.
#[tactic(auto, unfolding(crate::specs::Reading::is_hex))]
pub(crate) fn is_hex(s: &[u8]) -> bool
    ensures { result ≡ is_hex s.now }
{
    matches!(s, b"-") || (!s.is_empty() && s.len() % 2 == 0 && are_digits(s))
}

// Whether a text is at most 512 bytes.
#[tactic(auto, unfolding(crate::specs::Reading::is_frame))]
pub(crate) fn is_frame(s: &[u8]) -> bool
    ensures { result ≡ is_frame s.now }
{
    is_hex(s) && s.len() / 2 <= 512
}

// (No Option: `digit_of` has 0 there. By hand: from_str_radix takes a sign and capitals.)
fn digit_of(b: u8) -> u8
    ensures value { result ≡ digit_of b }
    ensures bound { result ≤ 15 }
{
    match b {
        b'0'..=b'9' => b - b'0',
        b'a'..=b'f' => b - b'a' + 10,
        _ => 0,
    }
}

// The byte whose two digits stand at k.
#[tactic(auto, unfolding(crate::specs::Reading::byte_at))]
fn byte_at(s: &[u8], k: usize) -> u8
    requires { k + 2 ≤ length s.now }
    ensures { result ≡ byte_at s.now k }
{
    16 * digit_of(s[k]) + digit_of(s[k + 1])
}

// Whether a text is a word: eight digits.
#[tactic(auto, unfolding(crate::specs::Reading::is_word))]
pub(crate) fn is_word(s: &[u8]) -> bool
    ensures { result ≡ is_word s.now }
{
    s.len() == 8 && are_digits(s)
}

// The word whose eight digits stand at k.
#[tactic(auto, unfolding(crate::specs::Reading::word_at))]
pub(crate) fn word_at(s: &[u8], k: usize) -> u32
    requires { k + 8 ≤ length s.now }
    ensures { result ≡ word_at s.now k }
{
    u32::from_be_bytes([
        byte_at(s, k),
        byte_at(s, k + 2),
        byte_at(s, k + 4),
        byte_at(s, k + 6),
    ])
}

// item(0) to item(n - 1) over the front of out, and n. Where out is too short, nothing is written and the count is 0. (No
// Option: `Written`, which its callers have, is of a count. By places and no chunks: `bytes_from` and `settings_in` are.)
fn fill<T: Copy, F: Fn(usize) -> T>(out: &mut [T], n: usize, item: F) -> usize
    requires { (i : ℕ) → i < n → F.pre item i }
    ensures short { length out.old < n → (out.new ≡ out.old) × (result ≡ 0) }
    ensures count { n ≤ length out.old → result ≡ n }
    ensures rest { n ≤ length out.old → drop n out.new ≡ drop n out.old }
    ensures items { n ≤ length out.old → (i : ℕ) (d : T) → i < n
        → F.post item i (slice_index_or out.new i d) }
{
    if out.len() < n {
        return 0;
    }
    for (i, place) in out[..n].iter_mut().enumerate() {
        *place = item(i);
    }
    n
}

// The bytes whose digits stand from `start` to the end of a line, over the front of out, and their count. Where out
// is too short, nothing is written and the count is 0.
pub fn bytes_from(line: &[u8], start: usize, out: &mut [u8]) -> usize
    ensures { Written (byte_count line.now start) (bytes_from line.now start)
        out.old out.new result }
{
    let count = line.len().saturating_sub(start) / 2;
    fill(out, count, |i| byte_at(line, start + 2 * i))
}

// The settings words of a line, over the front of out, and their count. Where out is too short, nothing is written
// and the count is 0.
pub fn settings_in(line: &[u8], out: &mut [u32]) -> usize
    ensures { Written (setting_count line.now) (settings_in line.now)
        out.old out.new result }
{
    let count = line.len().saturating_sub(4) / 9;
    fill(out, count, |i| word_at(line, 5 + 9 * i))
}

// Whether a space and eight digits stand where the word i is.
#[tactic(auto, unfolding(crate::specs::Reading::is_setting_at))]
fn is_setting_at(line: &[u8], i: usize) -> bool
    requires { 4 + 9 * i + 9 ≤ length line.now }
    ensures { result ≡ is_setting_at line.now i }
{
    let at = 5 + 9 * i;
    line[at - 1] == b' ' && are_digits(&line[at..at + 8])
}

// Whether the first n words of a line have their form.
fn are_settings(line: &[u8], n: usize) -> bool
    requires { 4 + 9 * n ≤ length line.now }
    ensures { result ≡ are_settings line.now n }
{
    (0..n).all(|i| is_setting_at(line, i))
}

// Whether at most 450 words follow the name, and nothing else.
#[tactic(auto, unfolding(crate::specs::Reading::is_load))]
pub(crate) fn is_load(line: &[u8]) -> bool
    ensures { result ≡ is_load line.now }
{
    let count = line.len().saturating_sub(4) / 9;
    line.len() == 4 + 9 * count && count <= 450 && are_settings(line, count)
}
