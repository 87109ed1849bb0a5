// Prints what stands in document 01 as examples, and more of their kind. First, for the desk examples that read the ledger, what Book, Totals and Find answer,
// charges in cents. Then how some fields, most of them damaged, are read: as a Record ID, as an amount of Number(11,2) and as a date. Last, each code of
// A5.24 with the numbers from 0 to 120 that `refusals::code_of` gives it and, after 107, each number that it refuses.

#![tactic(auto)]

ghost use Rattle.std.specs.Prelude.{◌≡◌, ◌≤◌, length, IfOk};
ghost use Rattle.std.specs.Counts.{IsPrefixLen};
ghost use Rattle.booking.specs.Booking.{result_of};

use amounts::{Amount, Charge, Usage};
use booking::Counts;
use entries::Entry;
use ledger::{Refusal, Totals};
use refusals::Outcome;
use std::rt::Files;
use std::{fmt, fs, io};

const RETAILER: u64 = 999999999;

const SITE: u64 = 20000000001;

// A file's name; then how many entries were added and how many of them are held, or the number and the line of a refusal.
fn print_answer(rt: &impl Print, name: &str, answer: Result<Counts, Outcome>) -> io::Result<()> {
    match answer {
        Ok(counts) => println!(rt; "{name}: accepted {} {}", counts.added, counts.held),
        Err(refusal) => println!(rt; "{name}: rejected {} {}", refusal.number, refusal.line),
    }
}

// Why a ledger is not read.
fn reason(refusal: Refusal) -> &'static str {
    match refusal {
        Refusal::Unsound => "not sound",
        Refusal::OutOfRange => "out of range",
        Refusal::NotHeld => "not held",
    }
}

fn print_sums(
    rt: &impl Print,
    accepted: Charge,
    totals: Result<Totals, Refusal>,
) -> io::Result<()> {
    print!(rt; "accepted {}: ", accepted.0)?;
    match totals {
        Ok(totals) => println!(rt;
            "live {}, held {}",
            totals.live.charge.0, totals.held.charge.0
        ),
        Err(refusal) => println!(rt; "{}", reason(refusal)),
    }
}

// A date, and the place of the live period that has it.
fn print_found(
    rt: &impl Print,
    date: &str,
    found: Result<Option<usize>, Refusal>,
) -> io::Result<()> {
    match found {
        Ok(Some(place)) => println!(rt; "{date}: found at {place}"),
        Ok(None) => println!(rt; "{date}: found none"),
        Err(refusal) => println!(rt; "{date}: {}", reason(refusal)),
    }
}

// The day number of a date; of any other text one that is out of range.
fn day(date: &str) -> u64 {
    calendar::day_of(date.as_bytes()).unwrap_or(36525)
}

// How many entries an answer says were added.
fn added(answer: Result<Counts, Outcome>) -> usize
    ensures { result ≡ (result_of answer).added }
{
    match answer {
        Ok(counts) => counts.added,
        Err(_) => 0,
    }
}

// Reads a file into the bytes and returns how many were read: 0 where it can't be opened, which is said on standard error.
fn read_named(rt: &(impl Files + Eprint), name: &str, bytes: &mut [u8]) -> io::Result<usize>
    ensures { IfOk result (λ n. IsPrefixLen n bytes.new) }
{
    match fs::open(rt, name) {
        Ok(mut file) => Ok(inputs::read_full(&mut file, bytes)),
        Err(error) => {
            eprintln!(rt; "{name}: {error}")?;
            Ok(0)
        }
    }
}

// Books a file, prints the answer and returns the used count afterwards.
fn book_named(
    rt: &(impl Files + Print + Eprint),
    name: &str,
    run: &mut [Entry],
    used: usize,
) -> io::Result<usize>
    requires { used ≤ length run.old }
    ensures { IfOk result (λ n. n ≤ length run.new) }
{
    let mut bytes = [0u8; 65536];
    let n = read_named(rt, name, &mut bytes)?;
    let answer = book::book(RETAILER, b"0040", &bytes[..n], run, used);
    print_answer(rt, name, answer)?;
    Ok(used + added(answer))
}

// The sum of the accepted files' trailer totals: the charges of the file entries.
fn accepted_charge(ledger: &[Entry]) -> Charge {
    let mut sum = Charge(0);
    for entry in ledger {
        if entry.kind == entries::FILE {
            sum = sum.plus(Charge(entry.charge));
        }
    }
    sum
}

// The sums, and what Find answers on 31 January and on 1 February.
fn print_ledger(rt: &impl Print, run: &[Entry], used: usize) -> io::Result<()>
    requires { used ≤ length run.now }
{
    let accepted = accepted_charge(&run[..used]);
    let totals = ledger::totals_of(run, used);
    print_sums(rt, accepted, totals)?;
    let january = ledger::find(run, used, SITE, day("20240131"));
    print_found(rt, "20240131", january)?;
    let february = ledger::find(run, used, SITE, day("20240201"));
    print_found(rt, "20240201", february)
}

// Into an empty ledger of so many places: A's file, and another.
fn book_two(rt: &(impl Files + Print + Eprint), places: usize, second: &str) -> io::Result<()>
    requires { places ≤ 512 }
{
    let mut entries = [entries::blank(); 512];
    let run = &mut entries[..places];
    println!(rt; "places {places}")?;
    let one = book_named(rt, "a.csv", run, 0)?;
    let two = book_named(rt, second, run, one)?;
    print_ledger(rt, run, two)
}

// Into an empty ledger of 512 places: A's file, B's, and another.
fn book_three(rt: &(impl Files + Print + Eprint), third: &str) -> io::Result<()> {
    let mut run = [entries::blank(); 512];
    println!(rt; "places 512")?;
    let one = book_named(rt, "a.csv", &mut run, 0)?;
    let two = book_named(rt, "b.csv", &mut run, one)?;
    let three = book_named(rt, third, &mut run, two)?;
    print_ledger(rt, &run, three)
}

fn show_ledgers(rt: &(impl Files + Print + Eprint)) -> io::Result<()> {
    // "A books January, 100.00. B cancels it and rebills 90.00: accepted 90.00, live 90.00."
    book_two(rt, 512, "b.csv")?;
    // "A cancel of -99.99 instead gets 40."
    book_two(rt, 512, "cancel-of-another-amount.csv")?;
    // "B's cancel sent again under new IDs gets 39."
    book_three(rt, "cancel-sent-again.csv")?;
    // "C brings 31 January to 27 February, 50.00: held; accepted 140.00 is 90.00 live and 50.00 held."
    book_three(rt, "c.csv")?;
    // "With one entry left, a file of FH and one OC gets 101; with two it is booked."
    book_two(rt, 3, "one-time-charge.csv")?;
    book_two(rt, 4, "one-time-charge.csv")?;
    // B's file with the rebill before the cancel.
    book_two(rt, 512, "rebill-before-cancel.csv")
}

// A number, or that there is none.
#[derive(Drop)]
struct OrNone(Option<u64>);

impl fmt::Display for OrNone {
    fn fmt<W: fmt::Write>(&self, f: &mut fmt::Formatter<W>) -> fmt::Result {
        match self.0 {
            Some(n) => write!(f, "{n}"),
            None => write!(f, "none"),
        }
    }
}

// What a field says of an amount.
#[derive(Drop)]
struct Said(Amount);

impl fmt::Display for Said {
    fn fmt<W: fmt::Write>(&self, f: &mut fmt::Formatter<W>) -> fmt::Result {
        match self.0 {
            Amount::Missing => write!(f, "missing"),
            Amount::Value(units) => write!(f, "{units}"),
            Amount::Misses => write!(f, "misses"),
        }
    }
}

fn show(rt: &impl Print, label: &str, s: &[u8]) -> io::Result<()> {
    let id = OrNone(digits::digits(s));
    let charge = Said(Charge::of(s));
    let usage = Said(Usage::of(s, 14));
    let day = OrNone(calendar::day_of(s));
    println!(rt; "{label}  id {id}  charge {charge}  usage {usage}  day {day}")
}

fn show_digits(rt: &impl Print) -> io::Result<()> {
    show(rt, "empty", b"")?;
    show(rt, "12345678901234567890", b"12345678901234567890")?;
    show(rt, "1234567890123456", b"1234567890123456")?;
    show(rt, "123456789012345", b"123456789012345")?;
    show(rt, "letters", b"twelve")
}

fn show_signs(rt: &impl Print) -> io::Result<()> {
    show(rt, "-", b"-")?;
    show(rt, "12.", b"12.")?;
    show(rt, ".5", b".5")?;
    show(rt, "12.5", b"12.5")?;
    show(rt, "-12.5", b"-12.5")?;
    show(rt, "-0", b"-0")?;
    show(rt, "0", b"0")?;
    show(rt, "a space", b" ")
}

fn show_widths(rt: &impl Print) -> io::Result<()> {
    show(rt, "0.005", b"0.005")?;
    show(rt, "0012.50", b"0012.50")?;
    show(rt, "999999999.99", b"999999999.99")?;
    show(rt, "1000000000", b"1000000000")?;
    show(rt, "byte 255", b"\xff")
}

fn show_dates(rt: &impl Print) -> io::Result<()> {
    show(rt, "20000229", b"20000229")?;
    show(rt, "20010229", b"20010229")?;
    show(rt, "20991231", b"20991231")?;
    show(rt, "21000101", b"21000101")
}

// The codes of A5.24, in its order.
const CODES: [u64; 43] = [
    6001, 6002, 6003, 6004, 6005, 6006, 6007, 6008, 6009, 6010, 6011, 6012, 6014, 6015, 6016, 6017,
    6018, 6019, 6020, 6021, 6022, 6023, 6024, 6025, 6026, 6028, 6029, 6031, 6032, 6033, 6034, 6035,
    6036, 6038, 6040, 6041, 6042, 6043, 6044, 6045, 6046, 6047, 6048,
];

// The code of a number, or 107 where it is no test that document 01 lists.
fn answer(number: u64) -> u64 {
    refusals::code_of(number).unwrap_or(107)
}

fn print_code(rt: &impl Print, code: u64) -> io::Result<()> {
    print!(rt; "{code}")?;
    for number in 0..=120 {
        if answer(number) == code {
            print!(rt; " {number}")?;
        }
    }
    println!(rt; "")
}

fn print_codes(rt: &impl Print) -> io::Result<()> {
    for code in CODES {
        print_code(rt, code)?;
    }
    Ok(())
}

fn print_refused(rt: &impl Print) -> io::Result<()> {
    for number in 0..=120 {
        if answer(number) == 107 {
            println!(rt; "107 {number}")?;
        }
    }
    Ok(())
}

fn main(rt: HostRuntime) -> io::Result<()> {
    show_ledgers(&rt)?;
    show_digits(&rt)?;
    show_signs(&rt)?;
    show_widths(&rt)?;
    show_dates(&rt)?;
    print_codes(&rt)?;
    print_refused(&rt)
}
