// Bytes in slices, and words of 32 bits in four of them, most significant byte first.
#![tactic(auto)]

ghost use Rattle.std.specs.Prelude.{◌≡◌, get_or, ◌+◌, ◌-◌, ◌≤◌, length};
ghost use Rattle.words.specs.Bytes.{same, slice, index_of};
ghost use Rattle.words.specs.Words.{word_of, word_at, word_bytes};
ghost use Rattle.words.specs.Output.{put_whole, count_within};

// Whether two slices hold the same bytes.
pub fn same(a: &[u8], b: &[u8]) -> bool
    ensures { result ≡ same a.now b.now }
{
    a == b
}

// The byte at k, 0 past the end.
pub fn byte_at(s: &[u8], k: usize) -> u8
    ensures { result ≡ get_or s.now k 0 }
{
    s.get(k).copied().unwrap_or(0)
}

// The word of four bytes.
pub fn word_of(a: u8, b: u8, c: u8, d: u8) -> u32
    ensures { result ≡ word_of a b c d }
{
    u32::from_be_bytes([a, b, c, d])
}

// The word whose first byte stands at k; bytes past the end count as 0.
pub fn word_at(s: &[u8], k: usize) -> u32
    ensures { result ≡ word_at s.now k }
{
    let Some(t) = s.get(k..) else {
        return 0;
    };
    word_of(byte_at(t, 0), byte_at(t, 1), byte_at(t, 2), byte_at(t, 3))
}

// The word v at byte k; nothing where it does not fit.
#[tactic(auto, using(crate::proofs::Put::put_tail_over), unfolding(crate::specs::Output::put_whole, crate::specs::Output::put, crate::specs::Output::over))]
pub fn put_word(out: &mut [u8], k: usize, v: u32)
    ensures { out.new ≡ put_whole out.old k (word_bytes v) }
{
    if k <= out.len() {
        copy(&v.to_be_bytes(), &mut out[k..]);
    }
}

// The bytes of src over the front of dst, and how many they are; none where they do not fit. It is a count and no Option:
// a delivery hands it on, and 0 is nothing written.
#[tactic(auto, unfolding(crate::specs::Output::put_whole, crate::specs::Output::put))]
pub fn copy(src: &[u8], dst: &mut [u8]) -> usize
    ensures count { result ≡ count_within src.now dst.old }
    ensures written { dst.new ≡ put_whole dst.old 0 src.now }
{
    let n = src.len();
    if dst.len() < n {
        return 0;
    }
    dst[..n].copy_from_slice(src);
    n
}

// What stands from one place up to another, or as much as there is.
#[tactic(auto, unfolding(crate::specs::Bytes::slice))]
pub fn part(s: &[u8], from: usize, to: usize) -> &[u8]
    ensures bytes { result.now ≡ slice from to s.now }
    ensures count { length result.now ≤ to - from }
{
    let front = &s[..to.min(s.len())];
    &front[from.min(front.len())..]
}

// The place of the first b from `from` on and before `to`; where there is none, the place after them. (No Option: its clause
// `place` speaks of that place.)
pub fn find(s: &[u8], from: usize, to: usize, b: u8) -> usize
    ensures place { result ≡ from + index_of b (slice from to s.now) }
    ensures within { from ≤ to → result ≤ to }
{
    from + part(s, from, to).iter().take_while(|x| **x != b).count()
}
