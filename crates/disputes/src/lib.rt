// Disputes of held entries: the refusals in request 4's order, then the line of the transaction.

#![tactic(auto)]

ghost use Rattle.std.specs.Prelude.{◌≡◌, ◌*◌, ◌^◌, nat_eq};
ghost use Rattle.disputes.specs.Disputes.{supplied};
ghost use Rattle.disputes.specs.InsideHeldEntry.{refusal_of, number_of, found_of, IdsTold, AskedTold, DisputedBy};

use dispute_lines::Dispute;
use entries::Entry;

// A5.25: tariff bill period overlap (with previous tariff bill files).
const OVERLAP: u64 = 7004;

// Why no dispute is written: the settings or a supplied field misses what is asked, the ledger is not sound or has no held entry there, or the line has no room.
#[derive(Clone, Copy)]
enum Refusal {
    Settings,
    Unsound,
    Unfit,
    NotHeld,
    NoRoom,
}

impl Refusal {
    // Document 01's number of the refusal.
    fn number(self) -> u64
        ensures { result ≡ number_of self }
    {
        match self {
            Refusal::Settings => 104,
            Refusal::Unsound => 105,
            Refusal::Unfit => 3,
            Refusal::NotHeld => 108,
            Refusal::NoRoom => 109,
        }
    }
}

// A ledger that is not sound is told as such; whatever else it refuses, there is no held entry.
impl From<ledger::Refusal> for Refusal {
    ghost from_gives = { λ refusal r. r ≡ refusal_of refusal };

    fn from(refusal: ledger::Refusal) -> Refusal {
        match refusal {
            ledger::Refusal::Unsound => Refusal::Unsound,
            ledger::Refusal::OutOfRange | ledger::Refusal::NotHeld => Refusal::NotHeld,
        }
    }
}

// The numbers of the two IDs among the supplied fields.
#[derive(Clone, Copy)]
pub struct Ids {
    pub transaction: u64,
    pub file: u64,
}

// The IDs that are supplied, where they and the Date Created fit.
fn ids_of(transaction: &[u8], created: &[u8], file: &[u8]) -> Option<Ids>
    ensures { IdsTold transaction.now created.now file.now result }
{
    let transaction = digits::digits(transaction)?;
    calendar::date_time_of(created)?;
    let file = digits::digits(file)?;
    Some(Ids { transaction, file })
}

// Whether the ledger isn't sound, which is told before a supplied field that doesn't fit.
fn is_unsound(found: Result<Entry, ledger::Refusal>) -> bool
    ensures { result ≡ nat_eq (found_of found).number 105 }
{
    matches!(found, Err(ledger::Refusal::Unsound))
}

// The dispute that is asked for, of what is found at a place of a ledger. It is refused without a look at the room.
fn asked(
    retailer: u64,
    distributors: &[u8],
    found: Result<Entry, ledger::Refusal>,
    transaction: &[u8],
    created: &[u8],
    file: &[u8],
) -> Result<Dispute, Refusal>
    ensures { AskedTold (supplied retailer distributors.now transaction.now created.now file.now) (found_of found) result }
{
    if !validation::settings_fit(retailer, distributors) {
        return Err(Refusal::Settings);
    }
    if is_unsound(found) {
        return Err(Refusal::Unsound);
    }
    let ids = ids_of(transaction, created, file).ok_or(Refusal::Unfit)?;
    let entry = found?;
    Ok(Dispute {
        transaction: ids.transaction,
        retailer,
        distributor: entry.sender,
        file: ids.file,
        site: entry.site,
        once: entry.kind != entries::PERIOD,
        id: entry.id,
        code: OVERLAP,
    })
}

// A refusal's number, as a host gets it.
fn refused(refusal: Refusal) -> u64
    ensures { result ≡ number_of refusal * 2 ^ 32 }
{
    refusal.number() * 4294967296
}

// The dispute of what is found at a place of a ledger. All refusals come before the first byte is written.
pub fn dispute(
    retailer: u64,
    distributors: &[u8],
    found: Result<Entry, ledger::Refusal>,
    transaction: &[u8],
    created: &[u8],
    file: &[u8],
    out: &mut [u8],
) -> u64
    ensures { DisputedBy (supplied retailer distributors.now transaction.now created.now file.now) (found_of found) out.old result out.new }
{
    match asked(retailer, distributors, found, transaction, created, file) {
        Ok(d) if out.len() < dispute_lines::line_length(d) => refused(Refusal::NoRoom),
        Ok(d) => dispute_lines::write_dispute(out, d, created) as u64,
        Err(refusal) => refused(refusal),
    }
}
