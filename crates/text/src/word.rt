// Words of a line, separated by one space; a line up to its newline.
ghost use Rattle.std.specs.Prelude.{◌≡◌, ◌≤◌, ◌==◌, nat_lt, length, is_some, IfSome, IfNone, []};
ghost use Rattle.std.specs.List.{before_first, after_first, position_or_len};
ghost use Rattle.text.specs.Reading.{word_in, rest_of};

use words::find;

// The place of the first such byte, or past all of them.
#[tactic(auto, using(words::proofs::Search::place_in_all))]
fn place_of(s: &[u8], byte: u8) -> usize
    ensures place { result ≡ position_or_len (λ b. b == byte) s.now }
    ensures within { result ≤ length s.now }
{
    find(s, 0, s.len(), byte)
}

// What stands before the first `at`, and what stands after it where there is one.
pub(crate) fn cut(s: &[u8], at: u8) -> (&[u8], Option<&[u8]>)
    ensures before { result.0.now ≡ before_first (λ b. b == at) s.now }
    ensures found { is_some result.1
        ≡ nat_lt (position_or_len (λ b. b == at) s.now) (length s.now) }
    ensures after { IfSome result.1 (λ rest. rest.now ≡ after_first (λ b. b == at) s.now) }
    ensures none_after { IfNone result.1 (after_first (λ b. b == at) s.now ≡ []) }
    ensures within { length result.0.now ≤ length s.now }
{
    let e = place_of(s, at);
    (&s[..e], s.get(e + 1..))
}

// The bytes before the first space, and those after it.
#[tactic(auto, unfolding(crate::specs::Reading::word_in, crate::specs::Reading::rest_of))]
pub(crate) fn split_word(s: &[u8]) -> (&[u8], &[u8])
    ensures word { result.0.now ≡ word_in s.now }
    ensures rest { result.1.now ≡ rest_of s.now }
    ensures shorter { length result.1.now ≤ length s.now }
    ensures within { length result.0.now ≤ length s.now }
{
    let (word, rest) = cut(s, b' ');
    (word, rest.unwrap_or(&[]))
}
