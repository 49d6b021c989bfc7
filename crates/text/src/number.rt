// Decimal numbers below 2^64. (By hand: `parse` takes a sign and leading zeros, and `number_of` has neither.)
ghost use Rattle.std.specs.Prelude.{◌≡◌, [], ◌∷◌};
ghost use Rattle.text.specs.Reading.{number_from, number_of};

// The value and one digit more.
#[tactic(auto, unfolding(crate::specs::Reading::number_from, crate::specs::Reading::value_from))]
fn digit_on(value: u64, digit: u8) -> Option<u64>
    ensures { result ≡ number_from value (digit ∷ []) }
{
    if !digit.is_ascii_digit() {
        return None;
    }
    value.checked_mul(10)?.checked_add(u64::from(digit - b'0'))
}

// The number that digits are.
fn number_from(digits: &[u8]) -> Option<u64>
    ensures { result ≡ number_from 0 digits.now }
{
    let mut value = 0;
    for digit in digits {
        value = digit_on(value, *digit)?;
    }
    Some(value)
}

// The number that a word is.
#[tactic(auto, unfolding(crate::specs::Reading::number_of))]
pub(crate) fn number_of(word: &[u8]) -> Option<u64>
    ensures { result ≡ number_of word.now }
{
    if word.is_empty() || (word.len() > 1 && word[0] == b'0') {
        return None;
    }
    number_from(word)
}
