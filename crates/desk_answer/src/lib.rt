// What the desk program prints, from the bytes that it reads: the program above it reads and writes, and nothing more.

#![tactic(auto)]

ghost use Rattle.std.specs.Prelude.{◌≡◌, [], ◌∷◌, ◌++◌, ◌+◌, ◌≤◌, ◌<◌, length};
ghost use Rattle.booking.specs.Booking.{result_of};
ghost use Rattle.writing.specs.Decimals.{plain_digits};
ghost use Rattle.writing.specs.InsideWriting.{written_at};
ghost use Rattle.desk_answer.specs.Line.{code_number, accepted_line, rejected_line, line_of};
ghost use Rattle.desk_answer.specs.Desk.{desk_result};

use booking::Counts;
use refusals::{Outcome, refused};

// The code of a number; 0 where it has none.
#[tactic(auto, unfolding(crate::specs::Line::code_number))]
fn code_number(number: u64) -> u64
    ensures { result ≡ code_number number }
{
    refusals::code_of(number).unwrap_or(0)
}

// n and the byte after it; returns the place after both.
fn write_number(out: &mut [u8], at: usize, n: u64, end: u8) -> usize
    requires { at + length (plain_digits n) < length out.old }
    ensures { (out.new ≡ written_at out.old at (plain_digits n ++ (end ∷ []))) × (result ≡ at + length (plain_digits n) + 1) }
{
    let to = writing::write_plain(out, at, n);
    out[to] = end;
    to + 1
}

// The line of a file that is accepted; returns its length.
fn write_accepted(out: &mut [u8], added: u64, held: u64) -> usize
    requires { 72 ≤ length out.old }
    ensures { (out.new ≡ written_at out.old 0 (accepted_line added held)) × (result ≡ length (accepted_line added held)) }
{
    writing::write_bytes(out, 0, b"accepted ");
    let to = write_number(out, 9, added, b' ');
    write_number(out, to, held, b'\n')
}

// The line of a rejected file. The answer is its length.
fn write_rejected(out: &mut [u8], number: u64, code: u64, line: u64) -> usize
    requires { 72 ≤ length out.old }
    ensures { (out.new ≡ written_at out.old 0 (rejected_line number code line)) × (result ≡ length (rejected_line number code line)) }
{
    writing::write_bytes(out, 0, b"rejected ");
    let past_number = write_number(out, 9, number, b' ');
    let past_code = write_number(out, past_number, code, b' ');
    write_number(out, past_code, line, b'\n')
}

// The line of Book's answer, at the start of `out`; returns its length. 72 bytes hold every line: a word of 8, three spaces, three numbers of at most
// 20 digits, and byte 10.
pub fn write_line(answer: Result<Counts, Outcome>, out: &mut [u8]) -> usize
    requires { 72 ≤ length out.old }
    ensures { (out.new ≡ written_at out.old 0 (line_of (result_of answer))) × (result ≡ length (line_of (result_of answer))) }
{
    match answer {
        Ok(counts) => write_accepted(out, counts.added as u64, counts.held as u64),
        Err(refusal) => {
            // number 0 is that of an accepted file: by `result_of` nothing was added and nothing is held
            if refusal.number == 0 {
                return write_accepted(out, 0, 0);
            }
            write_rejected(
                out,
                refusal.number,
                code_number(refusal.number),
                refusal.line,
            )
        }
    }
}

// Book's answer to the input, over an empty ledger of 512 entries.
fn answer(input: &[u8]) -> Result<Counts, Outcome>
    ensures { result_of result ≡ desk_result input.now }
{
    let is_long = 65536 < input.len();
    if is_long {
        return Err(refused(103, 0));
    }
    let mut run = [entries::blank(); 512];
    book::book(999999999, b"0040", input, &mut run, 0)
}

// Writes the line into `out`, and answers its length.
pub fn write_answer(input: &[u8], out: &mut [u8]) -> usize
    requires { 72 ≤ length out.old }
    ensures out_after { out.new ≡ written_at out.old 0 (line_of (desk_result input.now)) }
    ensures value { (result ≡ length (line_of (desk_result input.now))) × (result ≤ 72) }
{
    write_line(answer(input), out)
}
