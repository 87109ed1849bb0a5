// The ledger's entries: each a value, and a ledger a slice of them.

#![tactic(auto)]

ghost use Rattle.std.specs.Prelude.{◌≡◌};
ghost use Rattle.entries.specs.Entries.{blank, in_state, period};

use calendar::Period;

// "commodity (1 EL, 2 NG)"
pub const ELECTRICITY: u64 = 1;

pub const NATURAL_GAS: u64 = 2;

// "kind (1 file, 2 period, 3 one-time charge)": numbers, as a host writes them into its entries.
pub const FILE: u64 = 1;

pub const PERIOD: u64 = 2;

pub const ONE_TIME_CHARGE: u64 = 3;

// "state (1 live, 2 held, 3 cancelled, 4 cancel)"
pub const LIVE: u64 = 1;

pub const HELD: u64 = 2;

pub const CANCELLED: u64 = 3;

pub const CANCEL: u64 = 4;

// The fields of document 01, and nothing else.
#[repr(C)]
#[derive(Clone, Copy)]
pub struct Entry {
    pub sender: u64,
    pub commodity: u64,
    pub kind: u64,
    pub id: u64,
    pub site: u64,
    pub start: u64,
    pub end: u64,
    pub charge: i64,
    pub usage: i64,
    pub state: u64,
    pub cancels: u64,
}

impl Entry {
    // The entry, cancelled: state 3.
    pub fn cancelled(mut self) -> Entry
        ensures { result ≡ in_state self 3 }
    {
        self.state = CANCELLED;
        self
    }

    // Its days, from the start day to the end day.
    pub fn period(self) -> Period
        ensures { result ≡ period self }
    {
        Period {
            start: self.start,
            end: self.end,
        }
    }
}

// The entry of zeros: what stands in a place that no entry was written to.
pub fn blank() -> Entry
    ensures { result ≡ blank }
{
    Entry {
        sender: 0,
        commodity: 0,
        kind: 0,
        id: 0,
        site: 0,
        start: 0,
        end: 0,
        charge: 0,
        usage: 0,
        state: 0,
        cancels: 0,
    }
}
