//! Decimal numbers.

ghost use Rattle.std.specs.Prelude.{◌≡◌, ◌≤◌, ◌++◌, length, take, All, MatchOption, min, Some, None, OnOk, OnErr};
ghost use Rattle.std.specs.Char.{IsAsciiDigit};
ghost use Rattle.std.specs.Fmt.{decimal};
ghost use Rattle.std.specs.Str.Parse.{digits_value};
ghost use Rattle.cpt_line.specs.Digits.{digit_count, number_in};

use std::alloc::AllocError;

/// How many digits stand at the front.
pub fn count_digits(bytes: &[u8]) -> usize
    ensures count { result ≡ digit_count bytes.now }
    ensures within { result ≤ length bytes.now }
    ensures digits { All IsAsciiDigit (take result bytes.now) }
{
    for (i, b) in bytes.iter().enumerate() {
        if !b.is_ascii_digit() {
            return i;
        }
    }
    bytes.len()
}

/// The number that digits stand for, and `most` where it is above that.
pub fn capped_number(digits: &[u8], most: u64) -> u64
    requires digits { All IsAsciiDigit digits.now }
    requires most { most ≤ 4294967296 }
    ensures { result ≡ min (digits_value 10 digits.now) most }
{
    let mut number = 0u64;
    for b in digits {
        number = (number * 10 + u64::from(*b - b'0')).min(most);
    }
    number
}

/// The number without a leading zero at the front, and what follows it. A number above 1,000,000,000 is
/// answered as 1,000,000,001.
#[tactic(auto, unfolding(crate::specs::Digits::number_in))]
pub fn plain_number(bytes: &[u8]) -> Option<(u64, &[u8])>
    ensures { MatchOption result (number_in bytes.now ≡ None) (λ x. number_in bytes.now ≡ Some (x.0, x.1.now)) }
{
    let count = count_digits(bytes);
    if count == 0 || (count != 1 && bytes.starts_with(b"0")) {
        return None;
    }
    Some((
        capped_number(&bytes[..count], 1_000_000_001),
        &bytes[count..],
    ))
}

/// Appends the number in decimal digits, without a leading zero. After an `Err` the text is unchanged.
pub fn push_decimal(text: &mut Vec<u8>, number: u64) -> Result<(), AllocError>
    ensures ok { OnOk result (text.new.items ≡ text.old.items ++ decimal number) }
    ensures err { OnErr result (text.new.items ≡ text.old.items) }
{
    let digits = format!(in *text.allocator(); "{number}")?;
    text.extend_from_slice(digits.as_bytes())
}
