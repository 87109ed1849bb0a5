// The entries of an accepted file, written into the run of a ledger: the file entry, the cancels and what they cancel, the originals in their states.

#![tactic(auto)]

ghost use Rattle.std.specs.Prelude.{◌≡◌, true, false, cond, ℕ, ◌+◌, ◌≤◌, ◌<◌, eqb, length, get_or, set, take, drop};
ghost use Rattle.lists.specs.Selections.{count};
ghost use Rattle.entries.specs.Entries.{entry_of, in_state, is_held};
ghost use Rattle.buckets.specs.InsideChains.{ChainRoom};
ghost use Rattle.used_entries.specs.InsideSited.{BySite};
ghost use Rattle.booking.specs.Booking.{cancels, originals, file_entry, book_cancels, book_originals, booked};
ghost use Rattle.file_bills.specs.InsideBills.{file_in, Source, is_cancel};
ghost use Rattle.used_entries.specs.InsideNamed.{Named};
ghost use Rattle.accepted_entries.specs.InsideAccepted.{Leaves, with_cancel, state_after, with_original};

use entries::Entry;
use file_bills::SourceBill;

// How many entries are in use, and how many of those written are held.
#[derive(Clone, Copy)]
pub struct Written {
    pub used: usize,
    pub held: usize,
}

// "A cancel turns the record that it names into state 3."
fn cancel_at(run: &mut [Entry], place: usize)
    requires { place < length run.old }
    ensures { run.new ≡ set run.old place (in_state (entry_of run.old place) 3) }
{
    run[place] = run[place].cancelled();
}

// Writes a cancel, where the entry is one, and cancels the entry at the place that it names. Answers the used count.
fn write_cancel(run: &mut [Entry], used: usize, e: Entry, place: usize) -> usize
    requires { is_cancel e ≡ true → (place < length run.old) × (used < length run.old) }
    ensures value { result ≡ cond (is_cancel e) (used + 1) used }
    ensures places_after { run.new ≡ cond (is_cancel e) (with_cancel run.old used place e) run.old }
{
    if e.state != entries::CANCEL {
        return used;
    }
    cancel_at(run, place);
    run[used] = e;
    used + 1
}

// Writes the cancels, after the file entry, in file order. `used` counts the entries before the file's. The file's bytes are lent to say what they are.
fn write_cancels(
    run: &mut [Entry],
    used: usize,
    file: &[u8],
    bills: &[SourceBill],
    named: &[u16],
) -> usize
    requires room_for { used + 1 + length bills.now ≤ length run.old }
    requires source { Source (file_in file.now).bills bills.now × Named (take used run.old) (file_in file.now).bills named.now }
    ensures value { result ≡ used + 1 + length (cancels (file_in file.now)) }
    ensures fact { Leaves run.old run.new result (book_cancels (take (used + 1) run.old) (cancels (file_in file.now))) }
{
    let mut at = used + 1;
    for (k, bill) in bills.iter().enumerate() {
        at = write_cancel(run, at, bill.entry, named[k] as usize);
    }
    at
}

// An original's state at its turn, after the entries.
#[tactic(auto, unfolding(crate::specs::InsideAccepted::state_after))]
fn state_of(entries: &[Entry], heads: &[u16], links: &[u16], e: Entry) -> u64
    requires { BySite entries.now heads.now links.now }
    ensures { result ≡ state_after entries.now e }
{
    if e.kind != entries::PERIOD {
        return entries::LIVE;
    }
    if used_entries::first_overlap(entries, heads, links, e) < entries.len() {
        return entries::HELD;
    }
    entries::LIVE
}

// Writes an original in its state at its turn, where the entry is one, and puts it into the chain of its site, live or held.
fn write_original(
    run: &mut [Entry],
    heads: &mut [u16],
    links: &mut [u16],
    written: Written,
    e: Entry,
) -> Written
    requires room_for { ChainRoom (length run.old) heads.old links.old }
    requires by_site { BySite (take written.used run.old) heads.old links.old }
    requires counted { (written.held ≤ written.used) × (written.used ≤ length run.old) × (is_cancel e ≡ false → written.used < length run.old) }
    ensures used_value { result.used ≡ cond (is_cancel e) written.used (written.used + 1) }
    ensures places_after { run.new ≡ cond (is_cancel e) run.old (with_original run.old written.used e) }
    ensures held_value { result.held ≡ cond (is_cancel e) written.held (written.held + cond (eqb (state_after (take written.used run.old) e) 2) 1 0) }
    ensures by_site_2 { BySite (take result.used run.new) heads.new links.new }
{
    if e.state == entries::CANCEL {
        return written;
    }
    let used = written.used;
    let state = state_of(&run[..used], heads, links, e);
    run[used] = Entry { state, ..e };
    buckets::push(e.site, used, heads, links);
    Written {
        used: used + 1,
        held: written.held + usize::from(state == entries::HELD),
    }
}

// Writes the originals in file order, each in its state at its turn, after the `at` entries in use, which are in the chains of their sites.
fn write_originals(
    run: &mut [Entry],
    at: usize,
    file: &[u8],
    bills: &[SourceBill],
    heads: &mut [u16],
    links: &mut [u16],
) -> Written
    requires room_for { ChainRoom (length run.old) heads.old links.old × (at + length (originals (file_in file.now)) ≤ length run.old) }
    requires by_site { BySite (take at run.old) heads.old links.old × Source (file_in file.now).bills bills.now }
    ensures used_value { result.used ≡ at + length (originals (file_in file.now)) }
    ensures fact { Leaves run.old run.new result.used (book_originals (take at run.old) (originals (file_in file.now))) }
    ensures held_value { result.held ≡ count is_held (drop at (book_originals (take at run.old) (originals (file_in file.now)))) }
{
    let mut written = Written { used: at, held: 0 };
    for bill in bills {
        written = write_original(run, heads, links, written, bill.entry);
    }
    written
}

// Writes all entries of an accepted file: "its file entry, then its cancels (Indicator Y) in file order, then its originals (N) in file order".
// Two columns are lent for the chains, the first of them set to 0. The entries are put into them once the cancels are written, so that all before the
// originals are there.
pub fn write_entries(
    run: &mut [Entry],
    used: usize,
    file: &[u8],
    header: Entry,
    bills: &[SourceBill],
    named: &[u16],
    heads: &mut [u16],
    links: &mut [u16],
) -> Written
    requires room_for { ChainRoom (length run.old) heads.old links.old × (used + 1 + length bills.now ≤ length run.old) }
    requires by_index { ((b : ℕ) → get_or heads.old b 0 ≡ 0) × (header ≡ file_entry (file_in file.now)) }
    requires source { Source (file_in file.now).bills bills.now × Named (take used run.old) (file_in file.now).bills named.now }
    ensures used_value { result.used ≡ used + 1 + length bills.now }
    ensures fact { Leaves run.old run.new result.used (booked (take used run.old) (file_in file.now)) }
    ensures held_value { result.held ≡ count is_held (drop used (booked (take used run.old) (file_in file.now))) }
{
    run[used] = header;
    let at = write_cancels(run, used, file, bills, named);
    used_entries::index_sites(&run[..at], heads, links);
    write_originals(run, at, file, bills, heads, links)
}
