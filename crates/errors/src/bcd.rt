// Two decimal digits a byte (BCD), the upper half first.
ghost use Rattle.std.specs.Prelude.{◌≡◌};
ghost use Rattle.errors.specs.Bcd.{is_decimal, decimal, digits};

// Whether both halves are digits.
pub(crate) fn is_decimal(b: u8) -> bool
    ensures { result ≡ is_decimal b }
{
    b / 16 <= 9 && b % 16 <= 9
}

// The number of the two digits.
pub(crate) fn decimal(b: u8) -> u8
    ensures { result ≡ decimal b }
{
    10 * (b / 16) + b % 16
}

// The byte of a number's last two digits.
pub(crate) fn digits(n: u16) -> u8
    ensures { result ≡ digits n }
{
    (16 * (n / 10 % 10) + n % 10) as u8
}
