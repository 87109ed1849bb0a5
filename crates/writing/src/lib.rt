// Bytes written into a lent run, from a place on: numbers, and bytes as they are. Each function leaves the rest of the run as it was.
// The run and the place are two parameters, since each promise names both.

#![tactic(auto)]

ghost use Rattle.std.specs.Prelude.{◌≡◌, ◌+◌, ◌%◌, ◌≤◌, length};
ghost use Rattle.writing.specs.Decimals.{digits_in, digit_count, plain_digits};
ghost use Rattle.writing.specs.InsideWriting.{written_at};

// The byte of the lowest digit of n.
fn last_digit(n: u64) -> u8
    ensures { result ≡ 48 + n % 10 }
{
    (48 + n % 10) as u8
}

// The lowest `width` digits of n, the highest first.
pub fn write_digits(out: &mut [u8], at: usize, width: usize, n: u64)
    requires { at + width ≤ length out.old }
    ensures { out.new ≡ written_at out.old at (digits_in width n) }
{
    let mut v = n;
    for k in (0..width).rev() {
        out[at + k] = last_digit(v);
        v /= 10;
    }
}

// Bytes as they are. A loop: `copy_from_slice` would have the archive ask the C library for `memmove`, which it needs nowhere else.
pub fn write_bytes(out: &mut [u8], at: usize, bytes: &[u8])
    requires { at + length bytes.now ≤ length out.old }
    ensures { out.new ≡ written_at out.old at bytes.now }
{
    for k in (0..bytes.len()).rev() {
        out[at + k] = bytes[k];
    }
}

// How many digits n has.
pub fn digit_count(n: u64) -> usize
    ensures { result ≡ digit_count n }
{
    match n.checked_ilog10() {
        Some(k) => k as usize + 1,
        None => 1,
    }
}

// n without leading zeros; returns the place after it.
pub fn write_plain(out: &mut [u8], at: usize, n: u64) -> usize
    requires { at + length (plain_digits n) ≤ length out.old }
    ensures { (out.new ≡ written_at out.old at (plain_digits n)) × (result ≡ at + length (plain_digits n)) }
{
    let k = digit_count(n);
    write_digits(out, at, k, n);
    at + k
}
