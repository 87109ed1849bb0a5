// Book on a lent run of entries: refusals in document 01's order, and then the entries. Nothing is written before the last refusal is decided.

#![tactic(auto)]

ghost use Rattle.std.specs.Prelude.{◌≡◌, List, ℕ, ◌*◌, ◌≤◌, length};
ghost use Rattle.booking.specs.Booking.{input_of, file_entry};
ghost use Rattle.file_bills.specs.InsideBills.{file_in};
ghost use Rattle.ledger_tests.specs.InsideBills.{Bills};
ghost use Rattle.book.specs.InsideBook.{Meets, Ready, Opened, Tested};

use booking::Counts;
use entries::Entry;
use file_bills::{ReadFile, SourceBill};
use records::FoundLines;
use refusals::{Outcome, refused};

// Book of a file that passes tests 2 to 38, over a sound ledger, from its own entry and its TH and OC.
fn book_bills(
    file: &[u8],
    run: &mut [Entry],
    used: usize,
    header: Entry,
    bills: &[SourceBill],
) -> Result<Counts, Outcome>
    requires sizes { (length run.old ≤ 8192) × (used ≤ length run.old) }
    requires header_value { (header ≡ file_entry (file_in file.now)) × Bills (file_in file.now) bills.now }
    ensures { (retailer : ℕ) (distributors : List ℕ) → (let i = input_of retailer distributors file.now run.old used in Tested i → Meets i result run.new) }
{
    let places = run.len();
    let mut named = [0u16; 4096];
    ledger_tests::first_refusal(file, &run[..used], places, header, bills, &mut named)?;
    let mut heads = [0u16; 8192];
    let mut links = [0u16; 8192];
    let written = accepted_entries::write_entries(
        run, used, file, header, bills, &named, &mut heads, &mut links,
    );
    booking::accepted(bills.len(), written.held)
}

// Book of a file that passes tests 2 to 38, over a sound ledger. Room for its TH and OC is lent.
fn book_passing(
    file: &ReadFile,
    run: &mut [Entry],
    used: usize,
    bills: &mut [SourceBill],
) -> Result<Counts, Outcome>
    requires sizes { (length run.old ≤ 8192) × (used ≤ length run.old) }
    requires bill_room { file.now.n ≤ length bills.old }
    ensures { (retailer : ℕ) (distributors : List ℕ) → (let i = input_of retailer distributors file.now.bytes.now run.old used in Tested i → Meets i result run.new) }
{
    let header = file_bills::read_header(file);
    let count = file_bills::read_bills(file, header.sender, header.commodity, bills);
    book_bills(file.bytes, run, used, header, &bills[..count])
}

// Book of a file whose lines are found, over a sound ledger, with columns for so many lines. Setting the columns of 4,096 lines to 0 takes as long as reading
// some hundred.
fn book_with_columns<const WORDS: usize, const LINES: usize>(
    retailer: u64,
    distributors: &[u8],
    lines: &FoundLines,
    run: &mut [Entry],
    used: usize,
) -> Result<Counts, Outcome>
    requires opened { Opened (input_of retailer distributors.now lines.now.bytes.now run.old used) }
    requires columns { (lines.now.n ≤ LINES) × (WORDS ≡ 8 * LINES) × (LINES ≤ 4096) }
    ensures { Meets (input_of retailer distributors.now lines.now.bytes.now run.old used) result run.new }
{
    let mut words = [0u64; WORDS];
    let mut charges = [0u64; LINES];
    let mut usages = [0u64; LINES];
    validation::check_in_room(
        retailer,
        distributors,
        lines,
        &mut words,
        &mut charges,
        &mut usages,
    )?;
    let mut bills = [file_bills::blank_source(); LINES];
    let read = ReadFile {
        bytes: lines.bytes,
        starts: lines.starts,
        ends: lines.ends,
        n: lines.n,
        words: &words,
        charges: &charges,
        usages: &usages,
    };
    book_passing(&read, run, used, &mut bills)
}

// With room for the file's lines.
fn book_lines(
    retailer: u64,
    distributors: &[u8],
    lines: &FoundLines,
    run: &mut [Entry],
    used: usize,
) -> Result<Counts, Outcome>
    requires opened { Opened (input_of retailer distributors.now lines.now.bytes.now run.old used) }
    requires few { lines.now.n ≤ 4096 }
    ensures { Meets (input_of retailer distributors.now lines.now.bytes.now run.old used) result run.new }
{
    if lines.n <= 256 {
        return book_with_columns::<2048, 256>(retailer, distributors, lines, run, used);
    }
    if lines.n <= 1024 {
        return book_with_columns::<8192, 1024>(retailer, distributors, lines, run, used);
    }
    book_with_columns::<32768, 4096>(retailer, distributors, lines, run, used)
}

// Book of a file whose bytes are not too many, with settings that fit and over a sound ledger.
fn book_file(
    retailer: u64,
    distributors: &[u8],
    file: &[u8],
    run: &mut [Entry],
    used: usize,
) -> Result<Counts, Outcome>
    requires few { length file.now ≤ 1048576 }
    requires ready { Ready (input_of retailer distributors.now file.now run.old used) }
    ensures { Meets (input_of retailer distributors.now file.now run.old used) result run.new }
{
    let mut starts = [0usize; 4096];
    let mut ends = [0usize; 4096];
    let Some(n) = records::find_lines(file, &mut starts, &mut ends) else {
        return Err(refused(103, 0));
    };
    let lines = FoundLines {
        bytes: file,
        starts: &starts,
        ends: &ends,
        n,
    };
    book_lines(retailer, distributors, &lines, run, used)
}

// Book, for all settings, files and ledgers. The answer says how many entries were added: the used count afterwards is the one before and these.
pub fn book(
    retailer: u64,
    distributors: &[u8],
    file: &[u8],
    run: &mut [Entry],
    used: usize,
) -> Result<Counts, Outcome>
    ensures { Meets (input_of retailer distributors.now file.now run.old used) result run.new }
{
    if !validation::settings_fit(retailer, distributors) {
        return Err(refused(104, 0));
    }
    if !sound_ledgers::is_sound(run, used) {
        return Err(refused(105, 0));
    }
    let is_long = 1048576 < file.len();
    if is_long {
        return Err(refused(103, 0));
    }
    book_file(retailer, distributors, file, run, used)
}
