// The used entries of a ledger by their keys, and by their sites: one pass puts them into chains, and a search reads the entries of one chain, each of them
// tested itself.

#![tactic(auto)]

ghost use Rattle.std.specs.Prelude.{◌≡◌, Bool, true, ℕ, length, get_or, ◌&&◌, eqb};
ghost use Rattle.entries.specs.declared.Entry.{Entry};
ghost use Rattle.lists.specs.First.{first_where};
ghost use Rattle.buckets.specs.InsideChains.{ChainRoom, Chained};
ghost use Rattle.entries.specs.Entries.{entry_of};
ghost use Rattle.used_entries.specs.InsideSited.{BySite, overlaps_entry};
ghost use Rattle.lists.specs.Below.{first_below};
ghost use Rattle.lists.specs.Selections.{any};
ghost use Rattle.booking.specs.Booking.{is_stored};
ghost use Rattle.used_entries.specs.InsideKeyed.{ByKey};
ghost use Rattle.used_entries.specs.InsideSearches.{unmarked_and, named_first};

use entries::Entry;

// Puts the used entries into chains by what `value_of` reads of each. `value` says what that is.
fn index<F: Fn(Entry) -> u64>(entries: &[Entry], heads: &mut [u16], links: &mut [u16], value_of: F)
    ghost value: { Entry → ℕ }
    requires room_for { ChainRoom (length entries.now) heads.old links.old }
    requires by_index { (b : ℕ) → get_or heads.old b 0 ≡ 0 }
    requires reads { F.IsAlwaysCallable value_of × ((e : Entry) → (x : ℕ) → F.post value_of e x → x ≡ value e) }
    ensures { Chained (λ p. value (entry_of entries.now p)) (length entries.now) heads.new links.new }
{
    for (i, e) in entries.iter().enumerate() {
        buckets::push(value_of(*e), i, heads, links);
    }
}

// Puts the used entries into the chains of their sites, whatever they are: what isn't a live period fails the test itself.
pub fn index_sites(entries: &[Entry], heads: &mut [u16], links: &mut [u16])
    requires room_for { ChainRoom (length entries.now) heads.old links.old }
    requires by_index { (b : ℕ) → get_or heads.old b 0 ≡ 0 }
    ensures { BySite entries.now heads.new links.new }
{
    index(entries, heads, links, |e| e.site);
}

// Whether e is a live period of a's site that shares a day with it.
#[tactic(auto, unfolding(crate::specs::InsideSited::overlaps_entry))]
fn overlaps(a: Entry, e: Entry) -> bool
    ensures { result ≡ overlaps_entry a e }
{
    if !soundness::is_live_period(e) {
        return false;
    }
    if e.site != a.site {
        return false;
    }
    let p = e.period();
    let q = a.period();
    p.shares_day(q)
}

// The first place that isn't marked and whose entry is wanted, or the used count: a walk of the chain of `sought`, for which an iterator would need a law and an
// invariant of its own. `said.0` is what the chains are made by, and `said.1` what is wanted, all of it having the value `sought`.
fn first_in_chain<F: Fn(Entry) -> bool>(
    entries: &[Entry],
    heads: &[u16],
    links: &[u16],
    marks: &[u8],
    sought: u64,
    is_wanted: F,
) -> usize
    ghost said: { (Entry → ℕ) × (Entry → Bool) }
    requires chained { Chained (λ p. said.0 (entry_of entries.now p)) (length entries.now) heads.now links.now }
    requires only { (e : Entry) → said.1 e ≡ true → said.0 e ≡ sought }
    requires asks { F.IsAlwaysCallable is_wanted × ((e : Entry) → (b : Bool) → F.post is_wanted e b → b ≡ said.1 e) }
    ensures { result ≡ first_below (unmarked_and said.1 entries.now marks.now) (length entries.now) }
{
    let mut first = entries.len();
    let mut at = buckets::head(heads, sought);
    while let Some(place) = at {
        if is_unmarked(marks, place) && is_wanted(entries[place]) {
            first = place;
        }
        at = buckets::next(links, place);
    }
    first
}

// The place of the first entry that overlaps a, or the used count.
#[tactic(auto, using(crate::proofs::Sites::overlap_site), unfolding(crate::specs::InsideSited::overlaps_entry))]
pub fn first_overlap(entries: &[Entry], heads: &[u16], links: &[u16], a: Entry) -> usize
    requires { BySite entries.now heads.now links.now }
    ensures { result ≡ first_where (overlaps_entry a) entries.now }
{
    first_in_chain(entries, heads, links, b"", a.site, move |e| overlaps(a, e))
}

// Puts the used entries into chains by their keys.
pub fn index_keys(entries: &[Entry], heads: &mut [u16], links: &mut [u16])
    requires room_for { ChainRoom (length entries.now) heads.old links.old }
    requires by_index { (b : ℕ) → get_or heads.old b 0 ≡ 0 }
    ensures { ByKey entries.now heads.new links.new }
{
    index(
        entries,
        heads,
        links,
        |e| sound_ledgers::key(e.sender, e.id),
    );
}

// Whether a place isn't marked. A place past the marks isn't.
fn is_unmarked(marks: &[u8], place: usize) -> bool
    ensures { result ≡ eqb (get_or marks.now place 0) 0 }
{
    marks.get(place).is_none_or(|mark| *mark == 0)
}

// The used entries in chains by their keys.
#[derive(Clone, Copy)]
pub struct KeyChains<'a> {
    pub entries: &'a [Entry],
    pub heads: &'a [u16],
    pub links: &'a [u16],
    pub ghost by_key: { ByKey entries.now heads.now links.now },
}

impl<'a> KeyChains<'a> {
    // Whether an entry with a sender and a Record ID is stored.
    pub fn is_stored(&self, sender: u64, id: u64) -> bool
        ensures { result ≡ is_stored self.now.entries.now sender id }
    {
        let key = sound_ledgers::key(sender, id);
        let first = first_in_chain(self.entries, self.heads, self.links, b"", key, |e| {
            (e.sender == sender) & (e.id == id)
        });
        first < self.entries.len()
    }

    // Test 8: whether a file entry of a sender has a Record ID.
    pub fn has_file(&self, sender: u64, id: u64) -> bool
        ensures { result ≡ any (λ e. eqb e.kind 1 && eqb e.sender sender && eqb e.id id) self.now.entries.now }
    {
        let key = sound_ledgers::key(sender, id);
        let first = first_in_chain(self.entries, self.heads, self.links, b"", key, |e| {
            (e.kind == entries::FILE) & (e.sender == sender) & (e.id == id)
        });
        first < self.entries.len()
    }

    // The first place that isn't marked and whose entry the cancel c with a Reference ID names, or the used count.
    pub fn first_named(&self, marks: &[u8], reference: u64, c: Entry) -> usize
        ensures { result ≡ named_first self.now.entries.now marks.now reference c }
    {
        if reference == 0 {
            return self.entries.len();
        }
        let id = reference - 1;
        let key = sound_ledgers::key(c.sender, id);
        first_in_chain(self.entries, self.heads, self.links, marks, key, |e| {
            ((e.state == entries::LIVE) | (e.state == entries::HELD))
                & (id == e.id)
                & soundness::has_same_subject(c, e)
        })
    }
}
