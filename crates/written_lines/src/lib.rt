// Lines that are written into a lent run, part by part: each function puts a part and the byte that ends it, and returns the place after both.
// Each stores that byte itself: a function for these two lines, with its contract, would be longer.

#![tactic(auto)]

ghost use Rattle.std.specs.Prelude.{◌+◌, ◌<◌, length};
ghost use Rattle.writing.specs.Decimals.{digits_in, plain_digits};
ghost use Rattle.written_lines.specs.InsidePut.{Put};

// Bytes as they are.
pub fn put_bytes(out: &mut [u8], at: usize, bytes: &[u8], end: u8) -> usize
    requires { at + length bytes.now < length out.old }
    ensures { Put out.old at bytes.now end out.new result }
{
    let to = at + bytes.len();
    writing::write_bytes(out, at, bytes);
    out[to] = end;
    to + 1
}

// n without leading zeros.
pub fn put_plain(out: &mut [u8], at: usize, n: u64, end: u8) -> usize
    requires { at + length (plain_digits n) < length out.old }
    ensures { Put out.old at (plain_digits n) end out.new result }
{
    let to = writing::write_plain(out, at, n);
    out[to] = end;
    to + 1
}

// The lowest `width` digits of n.
pub fn put_digits(out: &mut [u8], at: usize, width: usize, n: u64, end: u8) -> usize
    requires { at + width < length out.old }
    ensures { Put out.old at (digits_in width n) end out.new result }
{
    writing::write_digits(out, at, width, n);
    let to = at + width;
    out[to] = end;
    to + 1
}
