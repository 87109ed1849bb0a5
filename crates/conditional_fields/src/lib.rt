// Test 6 of one record: which of its conditional fields its conditions ask for, by the numbers that its fields say, and whether one of them is empty, by
// the places of its fields.

#![tactic(auto)]

ghost use Rattle.std.specs.Prelude.{◌≡◌, List, ℕ, ◌+◌, ◌≤◌, eqb, get_or};
ghost use Rattle.lists.specs.Below.{some_below};
ghost use Rattle.amounts.specs.InsideSaid.{said_by};
ghost use Rattle.format.specs.Conditional.{is_one_of, ratchets, is_energized, unpopulated};
ghost use Rattle.conditional_fields.specs.InsideRecords.{RecordRead};

// The fields that conditions read, counted from 1: Cancel Indicator, Meter Type Code and Demand Type Code.
const TH_CANCEL_INDICATOR: usize = 7;

const OC_CANCEL_INDICATOR: usize = 6;

const DU_METER_TYPE: usize = 8;

const DD_DEMAND_TYPE: usize = 8;

// Where the first field stands that a condition asks for, counted from 0 as a record's places are, and how many it asks for: Tariff Bill Period Reference ID and Cancel
// Reason Code; Meter Number, and to Billing Multiplier where the site is energized; Ratchet Date Time and Ratchet Period Months; One-Time Charge Reference ID and
// Cancel Reason Code.
const TH_REFERENCE: usize = 7;

const DU_METER_NUMBER: usize = 8;

const DD_RATCHET: usize = 11;

const OC_REFERENCE: usize = 6;

const REFERENCE_AND_REASON: usize = 2;

const DATE_TIME_AND_MONTHS: usize = 2;

const METER_NUMBER_ALONE: usize = 1;

const TO_BILLING_MULTIPLIER: usize = 7;

// The codes that they are compared with, as the reader packs a text: Y, and C for a cumulative meter.
const YES: u64 = 89;

const CUMULATIVE: u64 = 67;

// The demand types that are ratchets, as the reader has an amount: 10^15 and its units.
const RATCHET: u64 = 1000000000004100;

const TRANSMISSION_RATCHET: u64 = 1000000000004110;

const DISTRIBUTION_RATCHET: u64 = 1000000000004120;

const SERVICE_RATCHET: u64 = 1000000000004200;

// Whether the number of a Demand Type Code is that of a ratchet.
fn is_ratchet(number: u64) -> bool
    ensures { result ≡ is_one_of ratchets (said_by number) }
{
    matches!(
        number,
        RATCHET | TRANSMISSION_RATCHET | DISTRIBUTION_RATCHET | SERVICE_RATCHET
    )
}

// Whether one of count fields is empty, of which the first stands after `after` others.
fn some_empty<'a>(
    starts: &'a [usize; 24],
    ends: &'a [usize; 24],
    after: usize,
    count: usize,
) -> bool
    requires { after + count ≤ 24 }
    ensures { result ≡ some_below (λ j. eqb (get_or starts.now (after + j) 0) (get_or ends.now (after + j) 0)) count }
{
    let end = after + count;
    starts[after..end]
        .iter()
        .zip(&ends[after..end])
        .any(|(a, b)| a == b)
}

// Whether a record of a type lacks a field that one of its conditions asks for. Its fields say the numbers, and stand at starts and ends; `energized` is whether
// the nearest TH before it has Site Status Code E.
pub fn is_unpopulated<'a>(
    record_type: u64,
    numbers: &[u64; 24],
    starts: &'a [usize; 24],
    ends: &'a [usize; 24],
    energized: bool,
) -> bool
    ensures { (file line period : List ℕ) → RecordRead file line record_type numbers.now starts.now ends.now → energized ≡ is_energized period → result ≡ unpopulated line period }
{
    match record_type {
        tables::TH => {
            if numbers[TH_CANCEL_INDICATOR] != YES {
                return false;
            }
            some_empty(starts, ends, TH_REFERENCE, REFERENCE_AND_REASON)
        }
        tables::DU => {
            if numbers[DU_METER_TYPE] != CUMULATIVE {
                return false;
            }
            let count = if energized {
                TO_BILLING_MULTIPLIER
            } else {
                METER_NUMBER_ALONE
            };
            some_empty(starts, ends, DU_METER_NUMBER, count)
        }
        tables::DD => {
            if !is_ratchet(numbers[DD_DEMAND_TYPE]) {
                return false;
            }
            some_empty(starts, ends, DD_RATCHET, DATE_TIME_AND_MONTHS)
        }
        tables::OC => {
            if numbers[OC_CANCEL_INDICATOR] != YES {
                return false;
            }
            some_empty(starts, ends, OC_REFERENCE, REFERENCE_AND_REASON)
        }
        _ => false,
    }
}
