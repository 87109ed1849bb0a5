// Decimal digits as bytes, read as a number.

#![tactic(auto)]

ghost use Rattle.std.specs.Prelude.{◌≡◌};
ghost use Rattle.digits.specs.Digits.{all_digits, digits_of, fixed_digits_of};

// Whether every byte of s is a digit.
pub fn all_digits(s: &[u8]) -> bool
    ensures { result ≡ all_digits s.now }
{
    for b in s {
        if !b.is_ascii_digit() {
            return false;
        }
    }
    true
}

// The number that the bytes of s write, where they are 1 to 15 digits.
pub fn digits(s: &[u8]) -> Option<u64>
    ensures { result ≡ digits_of s.now }
{
    if s.is_empty() || 15 < s.len() {
        return None;
    }
    let mut v: u64 = 0;
    for b in s {
        if !b.is_ascii_digit() {
            return None;
        }
        v = v * 10 + u64::from(*b - b'0');
    }
    Some(v)
}

// The number that the bytes of s write, where they are just n digits.
pub fn fixed_digits(s: &[u8], n: usize) -> Option<u64>
    ensures { result ≡ fixed_digits_of n s.now }
{
    if s.len() != n {
        return None;
    }
    digits(s)
}
