// Book on a lent run of entries, with its answer as a host has it.

#![tactic(auto)]

ghost use Rattle.std.specs.Prelude.{◌≡◌};
ghost use Rattle.booking.specs.Booking.{input_of, result_of};
ghost use Rattle.lent_ledger.specs.BookReplies.{book_reply, HostBooked};

use booking::Counts;
use entries::Entry;
use refusals::Outcome;

// The answer of Book: a refusal's number and line; or 0, and how many entries were added and how many held.
#[repr(C)]
#[derive(Clone, Copy)]
pub struct BookReply {
    pub number: u64,
    pub line: u64,
    pub added: u64,
    pub held: u64,
}

// An answer of Book as a host has it.
impl From<Result<Counts, Outcome>> for BookReply {
    ghost from_gives = { λ answer r. r ≡ book_reply (result_of answer) };

    fn from(answer: Result<Counts, Outcome>) -> BookReply {
        match answer {
            Ok(counts) => BookReply {
                number: 0,
                line: 0,
                added: counts.added as u64,
                held: counts.held as u64,
            },
            Err(refusal) => BookReply {
                number: refusal.number,
                line: refusal.line,
                added: 0,
                held: 0,
            },
        }
    }
}

// Book, for all settings, files and runs. The used count afterwards is the one before and the entries added.
pub fn book(
    retailer: u64,
    distributors: &[u8],
    file: &[u8],
    run: &mut [Entry],
    used: usize,
) -> BookReply
    ensures { HostBooked (input_of retailer distributors.now file.now run.old used) result run.new }
{
    BookReply::from(book::book(retailer, distributors, file, run, used))
}
