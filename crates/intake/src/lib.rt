// What the host program calls, as host/intake.h declares it. The answer of Check, of a dispute that is written, of a date and of a code is the refusal's number
// times 2 ^ 32, and in the lower 32 bits the line, the length or the value asked for; that of Book, Totals, Find, of an amount and of a dispute that is read is a
// struct of document 01's number and values.

#![tactic(auto)]

ghost use Rattle.std.specs.Prelude.{◌≡◌};
ghost use Rattle.amounts.specs.Amounts.{amount_of};
ghost use Rattle.amounts.specs.Replies.{amount_reply};
ghost use Rattle.calendar.specs.Calendar.{day_of};
ghost use Rattle.refusals.specs.Codes.{code_of};
ghost use Rattle.refusals.specs.Check.{check_of};
ghost use Rattle.refusals.specs.Answers.{packed, check_answer, day_answer, code_answer};
ghost use Rattle.ledger.specs.Ledger.{totals_result, find_result};
ghost use Rattle.booking.specs.Booking.{input_of};
ghost use Rattle.ledger.specs.Replies.{totals_reply, find_reply};
ghost use Rattle.dispute_lines.specs.Reading.{read_dispute, dispute_reply};
ghost use Rattle.disputes.specs.Disputes.{supplied, Disputed};
ghost use Rattle.lent_ledger.specs.BookReplies.{HostBooked};

use amounts::AmountReply;
use dispute_lines::DisputeReply;
use entries::Entry;
use ledger::{FindReply, TotalsReply};
use lent_ledger::BookReply;

// Check: the first refusal of a file, as its number and line; 0 and 0 when all tests pass.
#[unsafe(no_mangle)]
pub extern "C" fn intake_check(retailer: u64, distributors: &[u8], file: &[u8]) -> u64
    ensures { result ≡ packed (check_answer (check_of retailer distributors.now file.now)) }
{
    match validation::check(retailer, distributors, file) {
        Ok(()) => 0,
        Err(refusal) => refusal.number * 4294967296 + refusal.line,
    }
}

// The day of a date; 3 if it isn't one.
#[unsafe(no_mangle)]
pub extern "C" fn intake_day(date: &[u8]) -> u64
    ensures { result ≡ packed (day_answer (day_of date.now)) }
{
    refusals::day_word(date)
}

// What a field of Number(precision, scale) says: that it is empty, its units, or that it misses its type.
#[unsafe(no_mangle)]
pub extern "C" fn intake_amount(field: &[u8], precision: u64, scale: u64) -> AmountReply
    ensures { result ≡ amount_reply (amount_of precision scale field.now) }
{
    AmountReply::from(amounts::amount_of(field, precision as usize, scale as usize))
}

// The rejection code of a test; 107 if it isn't one of Table 5-1 that document 01 lists.
#[unsafe(no_mangle)]
pub extern "C" fn intake_code(test: u64) -> u64
    ensures { result ≡ packed (code_answer (code_of test)) }
{
    refusals::code_word(test)
}

// Book: refusals in document 01's order, which leave the run as it was lent; else the entries. The used count afterwards is the one before and the entries added.
#[unsafe(no_mangle)]
pub extern "C" fn intake_book(
    retailer: u64,
    distributors: &[u8],
    file: &[u8],
    run: &mut [Entry],
    used: usize,
) -> BookReply
    ensures { HostBooked (input_of retailer distributors.now file.now run.old used) result run.new }
{
    lent_ledger::book(retailer, distributors, file, run, used)
}

// Totals: for live and for held entries the charge, the usage in KWH and the usage in GJ.
#[unsafe(no_mangle)]
pub extern "C" fn intake_totals(run: &[Entry], used: usize) -> TotalsReply
    ensures { result ≡ totals_reply (totals_result run.now used) }
{
    TotalsReply::from(ledger::totals_of(run, used))
}

// Find: the place, from 0, of the live period of a site that has a day.
#[unsafe(no_mangle)]
pub extern "C" fn intake_find(run: &[Entry], used: usize, site: u64, day: u64) -> FindReply
    ensures { result ≡ find_reply (find_result run.now used site day) }
{
    FindReply::from(ledger::find(run, used, site, day))
}

// Dispute: one TBD line of the held entry at a place, written into lent bytes; its length, or the first refusal, which leaves every byte.
#[unsafe(no_mangle)]
pub extern "C" fn intake_dispute(
    retailer: u64,
    distributors: &[u8],
    run: &[Entry],
    used: usize,
    place: usize,
    transaction: &[u8],
    created: &[u8],
    file: &[u8],
    out: &mut [u8],
) -> u64
    ensures { Disputed (supplied retailer distributors.now transaction.now created.now file.now) run.now used place out.old result out.new }
{
    let found = ledger::held_entry(run, used, place);
    disputes::dispute(
        retailer,
        distributors,
        found,
        transaction,
        created,
        file,
        out,
    )
}

// One TBD line, read: a refusal's number, or 0 and what its fields say.
#[unsafe(no_mangle)]
pub extern "C" fn intake_read_dispute(line: &[u8]) -> DisputeReply
    ensures { result ≡ dispute_reply (read_dispute line.now) }
{
    dispute_reader::read_dispute(line)
}
