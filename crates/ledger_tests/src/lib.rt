// 8, 39, 40, 102 and 101 in their order, over a ledger's used entries, which are in chains by their keys, and over the TH and OC of a file.

#![tactic(auto)]

ghost use Rattle.std.specs.Prelude.{◌≡◌, true, not, ◌&&◌, ℕ, ◌≤◌, ◌<◌, ◌+◌, length, get_or, IfErr, OnOk};
ghost use Rattle.std.specs.List.{list_any};
ghost use Rattle.entries.specs.Entries.{entry_of};
ghost use Rattle.soundness.specs.Sound.{opposite};
ghost use Rattle.booking.specs.Booking.{is_stored, has_stored, first_unnamed, first_unopposed, file_entry, cancel_refusals, storage_refusals, ledger_refusals};
ghost use Rattle.used_entries.specs.InsideSearches.{named_first};
ghost use Rattle.file_bills.specs.InsideBills.{file_in, Source, References, is_cancel};
ghost use Rattle.used_entries.specs.InsideNamed.{Named};
ghost use Rattle.ledger_tests.specs.InsideTests.{Tried};
ghost use Rattle.refusals.specs.InsideResults.{told};
ghost use Rattle.refusals.specs.Refusals.{first_refusal};
ghost use Rattle.ledger_tests.specs.InsideBills.{Bills};

use entries::Entry;
use file_bills::SourceBill;
use refusals::{Outcome, refused};
use used_entries::KeyChains;

// Of the TH or OC c at k, where it is a cancel: notes the place of the entry that it names, and marks it. False where it names none.
fn name_cancel(
    chains: &KeyChains,
    c: Entry,
    reference: u64,
    k: usize,
    marks: &mut [u8],
    named: &mut [u16],
) -> bool
    requires used_in_bounds { (length chains.now.entries.now ≤ length marks.old) × (k < length named.old) }
    ensures { Tried c (named_first chains.now.entries.now marks.old reference c) (length chains.now.entries.now) k marks.old named.old marks.new named.new result }
{
    if c.state != entries::CANCEL {
        return true;
    }
    let place = chains.first_named(marks, reference, c);
    if chains.entries.len() <= place {
        return false;
    }
    marks[place] = 1;
    named[k] = place as u16;
    true
}

// Test 39: the first Y record that names no entry, or the number of records; then `named` has the place of the entry that each Y record names.
// A loop: each cancel marks the entry that it names, and those after it read the marks.
pub fn name_cancels(
    chains: &KeyChains,
    file: &[u8],
    bills: &[SourceBill],
    marks: &mut [u8],
    named: &mut [u16],
) -> usize
    requires used_in_bounds { (length chains.now.entries.now ≤ length marks.old) × (length bills.now ≤ length named.old) × ((p : ℕ) → get_or marks.old p 0 ≡ 0) }
    requires source { Source (file_in file.now).bills bills.now × References (file_in file.now).bills bills.now }
    ensures value { result ≡ first_unnamed chains.now.entries.now (file_in file.now) }
    ensures named { result ≡ length bills.now → Named chains.now.entries.now (file_in file.now).bills named.new }
{
    for (k, bill) in bills.iter().enumerate() {
        if !name_cancel(chains, bill.entry, bill.reference, k, marks, named) {
            return k;
        }
    }
    bills.len()
}

// Whether a cancel doesn't have the opposite amounts of the entry at a place.
fn is_unopposed(entries: &[Entry], c: Entry, place: usize) -> bool
    requires { is_cancel c ≡ true → place < length entries.now }
    ensures { result ≡ (is_cancel c && not (opposite c (entry_of entries.now place))) }
{
    c.state == entries::CANCEL && !soundness::is_opposite(c, entries[place])
}

// Test 40: the first Y record whose amounts aren't the opposites of those of the entry that it names, or the number of records.
// A cancel leaves the amounts, so those of the used entries are read.
pub fn first_unopposed(entries: &[Entry], file: &[u8], bills: &[SourceBill], named: &[u16]) -> usize
    requires source { Source (file_in file.now).bills bills.now × Named entries.now (file_in file.now).bills named.now }
    ensures { result ≡ first_unopposed entries.now (file_in file.now) }
{
    for (k, bill) in bills.iter().enumerate() {
        if is_unopposed(entries, bill.entry, named[k] as usize) {
            return k;
        }
    }
    bills.len()
}

// Whether the Record ID of one of some TH and OC is stored under its sender.
fn stores_any(chains: &KeyChains, bills: &[SourceBill]) -> bool
    ensures { result ≡ list_any (λ bill. is_stored chains.now.entries.now bill.entry.sender bill.entry.id) bills.now }
{
    bills
        .iter()
        .any(|bill| chains.is_stored(bill.entry.sender, bill.entry.id))
}

// Test 102: whether a Record ID of the file's FH, TH or OC is stored under its sender.
pub fn has_stored(
    chains: &KeyChains,
    file: &[u8],
    sender: u64,
    id: u64,
    bills: &[SourceBill],
) -> bool
    requires sender_value { (sender ≡ (file_in file.now).sender) × (id ≡ (file_in file.now).record_id) × Source (file_in file.now).bills bills.now }
    ensures { result ≡ has_stored chains.now.entries.now (file_in file.now) }
{
    chains.is_stored(sender, id) || stores_any(chains, bills)
}

// Tests 39 and 40. Where both pass, `named` has the place of the entry that each cancel names.
fn cancels_refusal(
    file: &[u8],
    chains: &KeyChains,
    bills: &[SourceBill],
    named: &mut [u16],
) -> Result<(), Outcome>
    requires used_bound { (length chains.now.entries.now ≤ 8192) × (length bills.now ≤ length named.old) × Bills (file_in file.now) bills.now }
    ensures value { told result ≡ first_refusal (cancel_refusals chains.now.entries.now (file_in file.now)) }
    ensures numbered { IfErr result (λ refusal. refusal.number ≡ 0 → ⊥) }
    ensures named { OnOk result (Named chains.now.entries.now (file_in file.now).bills named.new) }
{
    let mut marks = [0u8; 8192];
    let unnamed = name_cancels(chains, file, bills, &mut marks, named);
    if unnamed < bills.len() {
        return Err(refused(39, bills[unnamed].line as u64));
    }
    let unopposed = first_unopposed(chains.entries, file, bills, named);
    if unopposed < bills.len() {
        return Err(refused(40, bills[unopposed].line as u64));
    }
    Ok(())
}

// 102 and 101.
fn storage_refusal(
    file: &[u8],
    chains: &KeyChains,
    places: usize,
    header: Entry,
    bills: &[SourceBill],
) -> Result<(), Outcome>
    requires used_bound { (length chains.now.entries.now ≤ 8192) × (length bills.now ≤ 4096) × (header ≡ file_entry (file_in file.now)) × Source (file_in file.now).bills bills.now }
    ensures value { told result ≡ first_refusal (storage_refusals places chains.now.entries.now (file_in file.now)) }
    ensures numbered { IfErr result (λ refusal. refusal.number ≡ 0 → ⊥) }
    ensures n_bound { OnOk result (length chains.now.entries.now + 1 + length bills.now ≤ places) }
{
    if has_stored(chains, file, header.sender, header.id, bills) {
        return Err(refused(102, 0));
    }
    if places < chains.entries.len() + 1 + bills.len() {
        return Err(refused(101, 0));
    }
    Ok(())
}

// The refusal of the tests that read the ledger, over its used entries; `places` is how many its run has. Where none refuses, `named` has the place of the
// entry that each cancel names.
pub fn first_refusal(
    file: &[u8],
    entries: &[Entry],
    places: usize,
    header: Entry,
    bills: &[SourceBill],
    named: &mut [u16],
) -> Result<(), Outcome>
    requires room_for { (length entries.now ≤ 8192) × (length bills.now ≤ length named.old) }
    requires header_value { (header ≡ file_entry (file_in file.now)) × Bills (file_in file.now) bills.now }
    ensures value { told result ≡ first_refusal (ledger_refusals places entries.now (file_in file.now)) }
    ensures numbered { IfErr result (λ refusal. refusal.number ≡ 0 → ⊥) }
    ensures named { OnOk result (Named entries.now (file_in file.now).bills named.new × (length entries.now + 1 + length bills.now ≤ places)) }
{
    let mut heads = [0u16; 8192];
    let mut links = [0u16; 8192];
    used_entries::index_keys(entries, &mut heads, &mut links);
    let chains = KeyChains {
        entries,
        heads: &heads,
        links: &links,
    };
    if chains.has_file(header.sender, header.id) {
        return Err(refused(8, 1));
    }
    cancels_refusal(file, &chains, bills, named)?;
    storage_refusal(file, &chains, places, header, bills)
}
