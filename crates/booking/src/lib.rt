// Booking: its definition stands in specs/, its laws and the guarantee over lists of bookings in proofs/. Here is the type of Book's answer.

#![tactic(auto)]

ghost use Rattle.std.specs.Prelude.{◌≡◌, ℕ, ◌+◌, ◌≤◌};
ghost use Rattle.booking.specs.Booking.{result_of, accepted_result};

use refusals::Outcome;

// What Book answers where it accepts a file: how many entries were added, and how many of them are held.
#[derive(Clone, Copy)]
pub struct Counts {
    pub added: usize,
    pub held: usize,
}

// The answer for a file whose file entry and n records are booked. "An original period is held if it shares a day with a live period of its site": no
// number of them refuses a file.
pub fn accepted(n: usize, held: usize) -> Result<Counts, Outcome>
    requires { n ≤ 4096 }
    ensures { result_of result ≡ accepted_result (1 + n) held }
{
    let added = 1 + n;
    Ok(Counts { added, held })
}
