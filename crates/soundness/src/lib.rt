// When a ledger is sound, in specs/: document 01's sentences. Here are those that look at the sizes, at one entry, and at a cancel and the entry that it
// cancels, each a function of its own.
// `sound_ledgers::is_sound` asks them all.

#![tactic(auto)]

ghost use Rattle.std.specs.Prelude.{◌≡◌, not, cond, ◌||◌, ◌&&◌, ◌^◌, eqb, ltb, nat_abs, ◌+ℤ◌};
ghost use Rattle.entries.specs.Entries.{is_period};
ghost use Rattle.soundness.specs.Sound.{sizes_fit, digits_fit, within, ranges_fit, is_zero, lacks_fit, entry_fits, is_live_period, same_subject, is_named, opposite};

use entries::Entry;

// "the run has at most 8,192 entries and the used count doesn't exceed it"
#[tactic(auto, unfolding(crate::specs::Sound::sizes_fit))]
pub fn sizes_fit(places: usize, used: usize) -> bool
    ensures { result ≡ sizes_fit places used }
{
    places <= 8192 && used <= places
}

// Whether an amount has at most 15 digits.
fn amount_fits(amount: i64) -> bool
    ensures { result ≡ ltb (nat_abs amount) (10 ^ 15) }
{
    amounts::size(amount) < 1000000000000000
}

// "senders have at most 4 digits, sites 13, IDs and amounts 15"
#[tactic(auto, unfolding(crate::specs::Sound::digits_fit))]
fn digits_fit(e: Entry) -> bool
    ensures { result ≡ digits_fit e }
{
    (e.sender < 10000)
        & (e.site < 10000000000000)
        & (e.id < 1000000000000000)
        & (e.cancels < 1000000000000000)
        & amount_fits(e.charge)
        & amount_fits(e.usage)
}

pub fn is_within(low: u64, high: u64, n: u64) -> bool
    ensures { result ≡ within low high n }
{
    (low <= n) & (n <= high)
}

// "state 0 being for file entries and no others"
fn state_fits(e: Entry) -> bool
    ensures { result ≡ cond (eqb e.kind 1) (eqb e.state 0) (not (eqb e.state 0)) }
{
    if e.kind == entries::FILE {
        return e.state == 0;
    }
    e.state != 0
}

// "commodities, kinds, states and days are in range, state 0 being for file entries and no others"
#[tactic(auto, unfolding(crate::specs::Sound::ranges_fit))]
fn ranges_fit(e: Entry) -> bool
    ensures { result ≡ ranges_fit e }
{
    is_within(1, 2, e.commodity)
        & is_within(1, 3, e.kind)
        & (e.state <= entries::CANCEL)
        & (e.start <= 36524)
        & (e.end <= 36524)
        & state_fits(e)
}

// Only a period has days and usage.
fn period_lacks_fit(e: Entry) -> bool
    ensures { result ≡ (is_period e || (eqb e.start 0 && eqb e.end 0 && is_zero e.usage)) }
{
    (e.kind == entries::PERIOD) | ((e.start == 0) & (e.end == 0) & (amounts::size(e.usage) == 0))
}

// A file has no site.
fn site_lack_fits(e: Entry) -> bool
    ensures { result ≡ (not (eqb e.kind 1) || eqb e.site 0) }
{
    (e.kind != entries::FILE) | (e.site == 0)
}

// "what a kind lacks is 0, as is the cancelled ID outside state 4"
#[tactic(auto, unfolding(crate::specs::Sound::lacks_fit))]
fn lacks_fit(e: Entry) -> bool
    ensures { result ≡ lacks_fit e }
{
    period_lacks_fit(e) & site_lack_fits(e) & ((e.state == entries::CANCEL) | (e.cancels == 0))
}

// The sentences that look at one entry. They are joined with no branch between them, as what an entry holds is hard to foresee.
#[tactic(auto, unfolding(crate::specs::Sound::entry_fits, crate::specs::Sound::days_fit))]
pub fn entry_fits(e: Entry) -> bool
    ensures { result ≡ entry_fits e }
{
    digits_fit(e) & ranges_fit(e) & (e.start <= e.end) & lacks_fit(e)
}

pub fn is_live_period(e: Entry) -> bool
    ensures { result ≡ is_live_period e }
{
    e.state == entries::LIVE && e.kind == entries::PERIOD
}

// Alike in what test 39 compares, but for the Record ID.
pub fn has_same_subject(a: Entry, b: Entry) -> bool
    ensures { result ≡ same_subject a b }
{
    a.sender == b.sender
        && a.commodity == b.commodity
        && a.kind == b.kind
        && a.site == b.site
        && a.start == b.start
        && a.end == b.end
}

// Whether an entry is cancelled and has what a cancel names.
#[tactic(auto, unfolding(crate::specs::Sound::is_named))]
pub fn is_named(cancel: Entry, e: Entry) -> bool
    ensures { result ≡ is_named cancel e }
{
    e.state == entries::CANCELLED && e.id == cancel.cancels && has_same_subject(cancel, e)
}

// Whether two amounts add up to 0. The least number has no opposite among the numbers of 64 bits.
fn are_opposite(a: i64, b: i64) -> bool
    ensures { result ≡ is_zero (a +ℤ b) }
{
    a.checked_neg() == Some(b)
}

// Test 40's: charge and usage are the opposites.
#[tactic(auto, unfolding(crate::specs::Sound::opposite))]
pub fn is_opposite(cancel: Entry, e: Entry) -> bool
    ensures { result ≡ opposite cancel e }
{
    are_opposite(cancel.charge, e.charge) && are_opposite(cancel.usage, e.usage)
}
