// By the numbers that a line's fields say: whether its codes pass test 7, and what the columns hold of it.

#![tactic(auto)]

ghost use Rattle.std.specs.Prelude.{◌≡◌, ◌||◌, eqb, ◌+◌, ◌≤◌, ◌<◌, length, get_or, set};
ghost use Rattle.format.specs.Format.{commodity_fields, unit_fields, cancel_fields, exemption_fields};
ghost use Rattle.columns.specs.InsideColumns.{Room};
ghost use Rattle.columns.specs.Columns.{charge, usage};
ghost use Rattle.columns.specs.InsideRows.{RowStored};
ghost use Rattle.codes_and_rows.specs.InsideNumbers.{codes_stand, unit_of_number, column_numbers, field_number};

// The fields that have the codes of test 7, counted from 1: Commodity Code, Usage UOM, Cancel Indicator and GST Exemption Indicator.
const FH_COMMODITY: usize = 6;

const HEADER_UNIT: usize = 13;

const DU_UNIT: usize = 17;

const CANCEL_INDICATOR: usize = 7;

const OC_CANCEL_INDICATOR: usize = 6;

const CH_EXEMPTION: usize = 19;

const OC_EXEMPTION: usize = 11;

// The field of a type that has each of them; 0 where the type has none.
fn commodity_field(record_type: u64) -> usize
    ensures { result ≡ get_or commodity_fields record_type 0 }
{
    if record_type == tables::FH {
        FH_COMMODITY
    } else {
        0
    }
}

fn unit_field(record_type: u64) -> usize
    ensures { result ≡ get_or unit_fields record_type 0 }
{
    match record_type {
        tables::SH | tables::TH => HEADER_UNIT,
        tables::DU => DU_UNIT,
        _ => 0,
    }
}

fn cancel_field(record_type: u64) -> usize
    ensures { result ≡ get_or cancel_fields record_type 0 }
{
    match record_type {
        tables::TH | tables::DU | tables::DD | tables::DM | tables::CH => CANCEL_INDICATOR,
        tables::OC => OC_CANCEL_INDICATOR,
        _ => 0,
    }
}

fn exemption_field(record_type: u64) -> usize
    ensures { result ≡ get_or exemption_fields record_type 0 }
{
    match record_type {
        tables::CH => CH_EXEMPTION,
        tables::OC => OC_EXEMPTION,
        _ => 0,
    }
}

// The codes that test 7 knows, as the reader packs a text: its bytes to the base 256.
const EL: u64 = 17740;

const NG: u64 = 20039;

const KWH: u64 = 4937544;

const GJ: u64 = 18250;

const YES: u64 = 89;

const NO: u64 = 78;

// Whether the number of field k is one of two; field 0, which there is not, passes.
fn is_either(k: usize, numbers: &[u64; 24], one: u64, two: u64) -> bool
    requires { k < 24 }
    ensures { result ≡ (eqb k 0 || (eqb (get_or numbers.now k 0) one || eqb (get_or numbers.now k 0) two)) }
{
    if k == 0 {
        return true;
    }
    if numbers[k] == one {
        return true;
    }
    numbers[k] == two
}

// Test 7 of a record of a type, by the numbers that its fields and the commodity say: a text is its bytes to the base 256.
pub fn codes_stand(record_type: u64, numbers: &[u64; 24], commodity: u64) -> bool
    ensures { result ≡ codes_stand (unit_of_number commodity) record_type numbers.now }
{
    let unit: u64 = if commodity == EL { KWH } else { GJ };
    if !is_either(commodity_field(record_type), numbers, EL, NG) {
        return false;
    }
    if !is_either(unit_field(record_type), numbers, unit, unit) {
        return false;
    }
    if !is_either(cancel_field(record_type), numbers, YES, NO) {
        return false;
    }
    is_either(exemption_field(record_type), numbers, YES, NO)
}

// Puts what the columns hold of line i, a record of a type, into them: the numbers of its fields.
pub fn store_line(
    numbers: &[u64],
    record_type: u64,
    words: &mut [u64],
    charges: &mut [u64],
    usages: &mut [u64],
    i: usize,
)
    requires numbers_len { (length numbers.now ≡ 24) × (record_type < 9) }
    requires room { Room (i + 1) words.old charges.old usages.old × (length charges.old ≤ 4096) }
    ensures row_stored { RowStored (length charges.old) words.old i (column_numbers record_type numbers.now) 8 words.new }
    ensures charges_after { charges.new ≡ set charges.old i (field_number record_type numbers.now charge) }
    ensures usages_after { usages.new ≡ set usages.old i (field_number record_type numbers.now usage) }
{
    let room = charges.len();
    let fields = columns::column_fields();
    let row = record_type as usize;
    words[i] = record_type;
    for c in 1..7 {
        let k = fields[row][c];
        words[c * room + i] = numbers[k];
    }
    let cancel = fields[row][7];
    words[7 * room + i] = u64::from(numbers[cancel] == YES);
    let charge = fields[row][8];
    charges[i] = numbers[charge];
    let usage = fields[row][9];
    usages[i] = numbers[usage];
}
