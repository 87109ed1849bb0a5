// Whether a ledger is sound, without comparing all pairs of its entries: each is read once, into columns, and the tests that compare entries are passes over these.

#![tactic(auto)]

ghost use Rattle.std.specs.Prelude.{◌≡◌, cond, true, false, ◌<◌, ◌+◌, ◌*◌, ◌≤◌, ℕ, length, set, get_or, MatchOption};
ghost use Rattle.apart.specs.InsideGathered.{day_number, Gathering};
ghost use Rattle.soundness.specs.Sound.{is_live_period, is_sound};
ghost use Rattle.lists.specs.InsideColumn.{Copied};
ghost use Rattle.sound_ledgers.specs.InsideLivePeriods.{live_at, first_day, last_day};
ghost use Rattle.soundness.specs.Meaning.{Sound};
ghost use Rattle.sound_ledgers.specs.InsideKeys.{key_of, Keyed, state_at};
ghost use Rattle.sound_ledgers.specs.InsidePairing.{KeysOf, Cancels, Marked, WithMarks, PairedOff};

use buckets::Tree;
use entries::Entry;

// The states, as a column of bytes has them.
const CANCELLED: u8 = 3;

const CANCEL: u8 = 4;

// Puts the numbers of the first and the last day of an entry after those gathered so far, of which there are `count`, and counts it where it is a live period.
// Only the count depends on the entry: a branch around the stores would be hard to foresee.
pub fn gather(e: Entry, count: usize, firsts: &mut [u64], lasts: &mut [u64]) -> usize
    requires { (count < length firsts.old) × (count < length lasts.old) }
    ensures firsts_after { firsts.new ≡ set firsts.old count (day_number e.site e.start) }
    ensures lasts_after { lasts.new ≡ set lasts.old count (day_number e.site e.end) }
    ensures value { result ≡ cond (is_live_period e) (count + 1) count }
{
    firsts[count] = apart::day_number(e.site, e.start);
    lasts[count] = apart::day_number(e.site, e.end);
    if soundness::is_live_period(e) {
        return count + 1;
    }
    count
}

// One number for a sender and a Record ID.
#[tactic(auto, unfolding(crate::specs::InsideKeys::key_of))]
pub fn key(sender: u64, id: u64) -> u64
    ensures { result ≡ key_of sender id }
{
    sender % 16384 * 1125899906842624 + id % 1125899906842624
}

// Puts the key and the state of each entry and the days of the live periods into the columns, and answers how many live periods there are; none at an entry that
// does not fit by itself. Each entry is read once.
pub fn copy_entries(
    entries: &[Entry],
    keys: &mut [u64],
    states: &mut [u8],
    firsts: &mut [u64],
    lasts: &mut [u64],
) -> Option<usize>
    requires keys_in_bounds { (length entries.now ≤ length keys.old) × (length entries.now ≤ length states.old) }
    requires days_in_bounds { (length entries.now ≤ length firsts.old) × (length entries.now ≤ length lasts.old) }
    ensures { let n = length entries.now in MatchOption result (Sound entries.now n → ⊥) (λ live. Keyed entries.now n keys.new × Copied (state_at entries.now) n states.new × Gathering (live_at entries.now) (first_day entries.now) (last_day entries.now) firsts.new lasts.new n live) }
{
    let mut live: usize = 0;
    for (i, e) in entries.iter().enumerate() {
        let e = *e;
        if !soundness::entry_fits(e) {
            return None;
        }
        keys[i] = key(e.sender, e.id);
        states[i] = e.state as u8;
        live = gather(e, live, firsts, lasts);
    }
    Some(live)
}

// The place of the entry that the cancel at i cancels, or none.
fn cancelled_place(entries: &[Entry], keys: &Tree, i: usize) -> Option<usize>
    requires keyed { KeysOf entries.now keys.now.values.now }
    requires cancel { (i < length entries.now) × (state_at entries.now i ≡ 4) }
    ensures { MatchOption result ((j : ℕ) → Cancels entries.now i j → ⊥) (λ j. Cancels entries.now i j) }
{
    let cancel = entries[i];
    let named = key(cancel.sender, cancel.cancels);
    let j = keys.place_of(named)?;
    if i <= j {
        return None;
    }
    let cancelled = entries[j];
    if !soundness::is_named(cancel, cancelled) {
        return None;
    }
    if !soundness::is_opposite(cancel, cancelled) {
        return None;
    }
    Some(j)
}

// Leaves the mark of each cancel, its place and one, at the entry that it cancels. False at a cancel for which there is none, or one that has a mark.
fn mark_cancelled(entries: &[Entry], keys: &Tree, states: &[u8], marks: &mut [u16]) -> bool
    requires room { (length entries.now ≤ length states.now) × (length entries.now ≤ length marks.old) }
    requires keyed { KeysOf entries.now keys.now.values.now }
    requires copied { Copied (state_at entries.now) (length entries.now) states.now × ((j : ℕ) → get_or marks.old j 0 ≡ 0) }
    ensures marked { result ≡ true → Marked entries.now (length entries.now) marks.new }
    ensures unsound { result ≡ false → Sound entries.now (length entries.now) → ⊥ }
{
    for i in 0..entries.len() {
        if states[i] == CANCEL {
            match cancelled_place(entries, keys, i) {
                None => return false,
                Some(j) => {
                    if marks[j] != 0 {
                        return false;
                    }
                    marks[j] = (i + 1) as u16;
                }
            }
        }
    }
    true
}

// Whether each cancelled entry has a mark. There is no early exit, so that many are compared at once: where a cancelled entry stands is hard to foresee.
fn all_marked(states: &[u8], used: usize, marks: &[u16]) -> bool
    requires { (used ≤ length states.now) × (used ≤ length marks.now) }
    ensures with_marks { result ≡ true → WithMarks (λ i. get_or states.now i 0) used marks.now }
    ensures missing { result ≡ false → WithMarks (λ i. get_or states.now i 0) used marks.now → ⊥ }
{
    let mut all = true;
    for j in 0..used {
        if (states[j] == CANCELLED) & (marks[j] == 0) {
            all = false;
        }
    }
    all
}

// Whether cancels and cancelled entries pair off, in a ledger that is sound but for that and for live periods that share a day.
pub fn pair_off(entries: &[Entry], keys: &Tree, states: &[u8], marks: &mut [u16]) -> bool
    requires room { (length entries.now ≤ length states.now) × (length entries.now ≤ length marks.old) }
    requires keyed { KeysOf entries.now keys.now.values.now }
    requires copied { Copied (state_at entries.now) (length entries.now) states.now × ((j : ℕ) → get_or marks.old j 0 ≡ 0) }
    ensures paired_off { result ≡ true → PairedOff entries.now (length entries.now) }
    ensures unsound { result ≡ false → Sound entries.now (length entries.now) → ⊥ }
{
    if !mark_cancelled(entries, keys, states, marks) {
        return false;
    }
    all_marked(states, entries.len(), marks)
}

// Whether the entries make a sound ledger, for up to PLACES of them, with BUCKETS buckets of their keys. In the end the ranks of the live
// periods are put where the marks were.
fn is_sound_with<const PLACES: usize, const BUCKETS: usize, const TREE: usize>(
    entries: &[Entry],
) -> bool
    requires few { (length entries.now ≤ PLACES) × (PLACES ≤ 8192) }
    requires buckets { (0 < BUCKETS) × (BUCKETS ≤ 65536) × (BUCKETS + 2 * PLACES ≤ TREE) × (TREE ≤ 65536) }
    ensures sound { result ≡ true → Sound entries.now (length entries.now) }
    ensures unsound { result ≡ false → Sound entries.now (length entries.now) → ⊥ }
{
    let mut keys = [0u64; PLACES];
    let mut states = [0u8; PLACES];
    let mut firsts = [0u64; PLACES];
    let mut lasts = [0u64; PLACES];
    let mut tree = [0u16; TREE];
    let mut marks = [0u16; PLACES];
    let mut order = [0u16; PLACES];
    let copies = copy_entries(entries, &mut keys, &mut states, &mut firsts, &mut lasts);
    let Some(live) = copies else { return false };
    let keys = &keys[..entries.len()];
    if buckets::first_repeated(keys, BUCKETS, &mut tree) != entries.len() {
        return false;
    }
    let index = Tree {
        values: keys,
        size: BUCKETS,
        slots: &tree,
    };
    if !pair_off(entries, &index, &states, &mut marks) {
        return false;
    }
    apart::all_apart(&firsts, &lasts, live, &mut order, &mut marks)
}

// Whether the first entries of a run, as many as are in use, make a sound ledger. Larger columns take longer to make than few entries to read; the more buckets
// there are to an entry, the fewer hold two.
pub fn is_sound(run: &[Entry], used: usize) -> bool
    ensures { result ≡ is_sound run.now used }
{
    if !soundness::sizes_fit(run.len(), used) {
        return false;
    }
    let entries = &run[..used];
    if used <= 1024 {
        return is_sound_with::<1024, 4096, 6144>(entries);
    }
    if used <= 4096 {
        return is_sound_with::<4096, 8192, 16384>(entries);
    }
    is_sound_with::<8192, 16384, 32768>(entries)
}
