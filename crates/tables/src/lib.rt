// Tables 4-2 to 4-10. The nine record types, counted from 0: FH, SH, TH, DU, DD, DM, CH, OC, FT. What may follow what, what hangs under what, and values picked by
// type; then how many fields each has, which are marked Mandatory, and the type of each.

#![tactic(auto)]

ghost use Rattle.std.specs.Prelude.{◌≡◌, ◌++◌, cond, ◌&&◌, ◌≤◌, leb, ltb, length, drop};
ghost use Rattle.tables.specs.Types.{type_named, follow_table, may_follow, parent_type};
ghost use Rattle.tables.specs.Groups.{picked};
ghost use Rattle.tables.specs.Tables.{field_count, mark_rows};
ghost use Rattle.tables.specs.InsideRows.{joined};
ghost use Rattle.tables.specs.InsideCodes.{code_rows};

// The record types: numbers, as they stand in a column beside other numbers.
pub const FH: u64 = 0;

pub const SH: u64 = 1;

pub const TH: u64 = 2;

pub const DU: u64 = 3;

pub const DD: u64 = 4;

pub const DM: u64 = 5;

pub const CH: u64 = 6;

pub const OC: u64 = 7;

pub const FT: u64 = 8;

// The type of a line whose field 3 names none.
pub const NO_TYPE: u64 = 9;

// Whether the type of the column may follow the type of the row.
const FOLLOWS: [[bool; 9]; 9] = [
    // after FH
    [false, true, false, false, false, false, false, false, false],
    // after SH
    [false, false, true, false, false, false, false, true, false],
    // after TH
    [false, true, true, true, true, true, true, true, true],
    // after DU
    [false, true, true, true, true, true, true, true, true],
    // after DD
    [false, true, true, false, true, true, true, true, true],
    // after DM
    [false, true, true, false, false, true, true, true, true],
    // after CH
    [false, true, true, false, false, false, true, true, true],
    // after OC
    [false, true, false, false, false, false, false, true, true],
    // after FT
    [
        false, false, false, false, false, false, false, false, false,
    ],
];

// The type that two letters name, or 9. The letters are read as the number 256 * first + second.
pub fn type_named(s: &[u8]) -> u64
    ensures { result ≡ type_named s.now }
{
    if s.len() != 2 {
        return NO_TYPE;
    }
    match u64::from(s[0]) * 256 + u64::from(s[1]) {
        17992 => FH,
        21320 => SH,
        21576 => TH,
        17493 => DU,
        17476 => DD,
        17485 => DM,
        17224 => CH,
        20291 => OC,
        18004 => FT,
        _ => NO_TYPE,
    }
}

// The table of which type may follow which, where it stands.
pub fn follow_table() -> &'static [[bool; 9]; 9]
    ensures { result.now ≡ follow_table }
{
    &FOLLOWS
}

// Whether a record of the present type may follow one of the previous type.
pub fn may_follow(previous: u64, present: u64) -> bool
    ensures { result ≡ may_follow previous present }
{
    if 9 <= previous {
        return false;
    }
    if 9 <= present {
        return false;
    }
    follow_table()[previous as usize][present as usize]
}

// The type of the record that a record of a type hangs under; FH, which has none, has 9.
pub fn parent_type(record_type: u64) -> u64
    ensures { result ≡ parent_type record_type }
{
    match record_type {
        FH => NO_TYPE,
        SH => FH,
        TH => SH,
        DU => TH,
        DD => TH,
        DM => TH,
        CH => TH,
        OC => SH,
        FT => FH,
        _ => NO_TYPE,
    }
}

// Where the nearest record of a type is kept: the types that can be asked for, 0 to 9, have a place each, and all others share one.
pub fn slot(record_type: u64) -> usize
    ensures { result ≡ cond (ltb record_type 10) record_type 10 }
{
    if record_type < 10 {
        return record_type as usize;
    }
    10
}

// The value of a record whose type is one of low to high, and 0 for another.
pub fn chosen(record_type: u64, value: u64, low: u64, high: u64) -> u64
    ensures { result ≡ cond (leb low record_type && leb record_type high) value 0 }
{
    if record_type < low {
        return 0;
    }
    if high < record_type {
        return 0;
    }
    value
}

// Puts the values of the records of the types low to high into out, and 0 for the others.
pub fn pick(types: &[u64], values: &[u64], low: u64, high: u64, out: &mut [u64])
    requires { (length values.now ≡ length types.now) × (length types.now ≤ length out.old) }
    ensures { out.new ≡ picked types.now values.now low high ++ drop (length types.now) out.old }
{
    for i in 0..types.len() {
        out[i] = chosen(types[i], values[i], low, high);
    }
}

// Whether each field of each record type is marked Mandatory: 19 marks a type, as the longest table has. CODES, below, names the fields.
const MARKS: [bool; 171] = [
    // Table 4-2, FH
    true, true, true, true, true, true, true, false, false, false, false, false, false, false,
    false, false, false, false, false,
    // Table 4-3, SH
    true, true, true, true, false, false, true, true, true, false, true, true, true, true, false,
    true, false, false, false,
    // Table 4-4, TH
    true, true, true, true, true, true, true, false, false, true, true, true, true, true, false,
    false, false, false, false,
    // Table 4-5, DU
    true, true, true, true, true, true, true, true, false, false, false, false, false, false,
    false, true, true, false, false,
    // Table 4-6, DD
    true, true, true, true, true, true, true, true, true, true, false, false, false, false, false,
    false, false, false, false,
    // Table 4-7, DM
    true, true, true, true, true, true, true, true, true, true, false, false, false, false, false,
    false, false, false, false,
    // Table 4-8, CH
    true, true, true, true, true, true, true, true, true, true, true, true, true, true, true, true,
    true, true, true,
    // Table 4-9, OC
    true, true, true, true, true, true, false, false, true, true, true, false, false, false, false,
    false, false, false, false,
    // Table 4-10, FT
    true, true, true, true, true, false, false, false, false, false, false, false, false, false,
    false, false, false, false, false,
];

// How many fields a record of a type has; 0 for no type.
pub fn field_count(record_type: u64) -> usize
    ensures { result ≡ field_count record_type }
{
    match record_type {
        FH => 9,
        SH => 18,
        TH => 14,
        DU => 17,
        DD => 15,
        DM => 10,
        CH => 19,
        OC => 11,
        FT => 5,
        _ => 0,
    }
}

// Whether the fields of the record types are marked Mandatory, 19 a type.
pub fn marks() -> &'static [bool; 171]
    ensures { result.now ≡ joined mark_rows }
{
    &MARKS
}

// The codes of the types: a byte each for the kind and for the two numbers of the type. (A table of enums takes long to check.)
const RECORD_ID: usize = 0;

const DIGITS_4: usize = 66560;

const DIGITS_9: usize = 67840;

const DIGITS_13: usize = 68864;

const NUMBER_2_0: usize = 131584;

const NUMBER_3_0: usize = 131840;

const NUMBER_4_0: usize = 132096;

const NUMBER_7_6: usize = 132870;

const NUMBER_9_0: usize = 133376;

const NUMBER_9_6: usize = 133382;

const NUMBER_10_4: usize = 133636;

const NUMBER_11_2: usize = 133890;

const NUMBER_12_4: usize = 134148;

const NUMBER_13_4: usize = 134404;

const NUMBER_14_4: usize = 134660;

const NUMBER_14_9: usize = 134665;

const NUMBER_15_6: usize = 134918;

const NUMBER_19_12: usize = 135948;

const DATE: usize = 196608;

const DATE_TIME: usize = 262144;

const CHAR_1: usize = 327936;

const CHAR_2: usize = 328192;

const CHAR_4: usize = 328704;

const VARCHAR_4: usize = 394240;

const VARCHAR_7: usize = 395008;

const VARCHAR_9: usize = 395520;

const VARCHAR_20: usize = 398336;

const VARCHAR_50: usize = 406016;

// The code of the type of each field of each record type: 19 codes a type, as the longest table has. Numbers: a table of so many enums takes long to check.
const CODES: [usize; 171] = [
    // Table 4-2, FH: 1 Record ID, 2 Parent ID, 3 Record Type, 4 Retailer ID, 5 Sender ID, 6 Commodity Code, 7 Date Created, 8 Billing Cycle, 9 Tariff
    // Bill File Reference ID
    RECORD_ID,
    RECORD_ID,
    CHAR_2,
    DIGITS_9,
    DIGITS_4,
    CHAR_2,
    DATE_TIME,
    VARCHAR_9,
    RECORD_ID,
    RECORD_ID,
    RECORD_ID,
    RECORD_ID,
    RECORD_ID,
    RECORD_ID,
    RECORD_ID,
    RECORD_ID,
    RECORD_ID,
    RECORD_ID,
    RECORD_ID,
    // Table 4-3, SH: 1 Record ID, 2 Parent ID, 3 Record Type, 4 Site ID, 5 Current Billing Period Start Date, 6 Current Billing Period End Date, 7
    // Distributor ID, 8 Zone ID, 9 Municipality ID, 10 REA Code, 11 Billing Cycle, 12 Usage Total, 13 Usage UOM, 14 Charge Total, 15 Additional Site
    // Information, 16 Site Production Reason Code, 17 As-at Date, 18 Parent Site ID
    RECORD_ID,
    RECORD_ID,
    CHAR_2,
    DIGITS_13,
    DATE,
    DATE,
    DIGITS_4,
    DIGITS_4,
    VARCHAR_4,
    CHAR_4,
    VARCHAR_9,
    NUMBER_14_4,
    VARCHAR_4,
    NUMBER_11_2,
    VARCHAR_50,
    NUMBER_4_0,
    DATE_TIME,
    DIGITS_13,
    RECORD_ID,
    // Table 4-4, TH: 1 Record ID, 2 Parent ID, 3 Record Type, 4 Site ID, 5 Tariff Bill Period Start Date, 6 Tariff Bill Period End Date, 7 Cancel
    // Indicator, 8 Tariff Bill Period Reference ID, 9 Cancel Reason Code, 10 Tariff Rate Code, 11 Site Status Code, 12 Usage Total, 13 Usage UOM, 14
    // Charge Total
    RECORD_ID,
    RECORD_ID,
    CHAR_2,
    DIGITS_13,
    DATE,
    DATE,
    CHAR_1,
    RECORD_ID,
    NUMBER_4_0,
    VARCHAR_9,
    CHAR_1,
    NUMBER_14_4,
    VARCHAR_4,
    NUMBER_11_2,
    RECORD_ID,
    RECORD_ID,
    RECORD_ID,
    RECORD_ID,
    RECORD_ID,
    // Table 4-5, DU: 1 Record ID, 2 Parent ID, 3 Record Type, 4 Site ID, 5 Usage Period Start Date, 6 Usage Period End Date, 7 Cancel Indicator, 8
    // Meter Type Code, 9 Meter Number, 10 Number of Dials, 11 From Reading, 12 From Reading Code, 13 To Reading, 14 To Reading Code, 15 Billing
    // Multiplier, 16 Usage Amount, 17 Usage UOM
    RECORD_ID,
    RECORD_ID,
    CHAR_2,
    DIGITS_13,
    DATE,
    DATE,
    CHAR_1,
    CHAR_1,
    VARCHAR_20,
    NUMBER_3_0,
    NUMBER_14_4,
    CHAR_1,
    NUMBER_14_4,
    CHAR_1,
    NUMBER_14_9,
    NUMBER_13_4,
    VARCHAR_4,
    RECORD_ID,
    RECORD_ID,
    // Table 4-6, DD: 1 Record ID, 2 Parent ID, 3 Record Type, 4 Site ID, 5 Demand Period Start Date, 6 Demand Period End Date, 7 Cancel Indicator, 8
    // Demand Type Code, 9 Demand Value, 10 Demand UOM, 11 Meter Number, 12 Ratchet Date Time, 13 Ratchet Period Months, 14 Power Factor, 15 Demand
    // Contract End Date
    RECORD_ID,
    RECORD_ID,
    CHAR_2,
    DIGITS_13,
    DATE,
    DATE,
    CHAR_1,
    NUMBER_4_0,
    NUMBER_10_4,
    VARCHAR_4,
    VARCHAR_20,
    DATE_TIME,
    NUMBER_2_0,
    NUMBER_7_6,
    DATE,
    RECORD_ID,
    RECORD_ID,
    RECORD_ID,
    RECORD_ID,
    // Table 4-7, DM: 1 Record ID, 2 Parent ID, 3 Record Type, 4 Site ID, 5 Miscellaneous Determinant Period Start Date, 6 Miscellaneous Determinant
    // Period End Date, 7 Cancel Indicator, 8 Unit Quantity, 9 Unit Quantity UOM, 10 Miscellaneous Determinant Code
    RECORD_ID,
    RECORD_ID,
    CHAR_2,
    DIGITS_13,
    DATE,
    DATE,
    CHAR_1,
    NUMBER_12_4,
    VARCHAR_7,
    VARCHAR_4,
    RECORD_ID,
    RECORD_ID,
    RECORD_ID,
    RECORD_ID,
    RECORD_ID,
    RECORD_ID,
    RECORD_ID,
    RECORD_ID,
    RECORD_ID,
    // Table 4-8, CH: 1 Record ID, 2 Parent ID, 3 Record Type, 4 Site ID, 5 Charge Period Start Date, 6 Charge Period End Date, 7 Cancel Indicator, 8
    // Tariff Cross Reference Code, 9 Component Category Code, 10 Component Basis Code, 11 Component Type Code, 12 Component Step Number, 13 Component
    // Billed Quantity, 14 Component Billed Quantity UOM, 15 Time Calculation Type, 16 Time Factor, 17 Component Unit Price, 18 Charge Amount, 19 GST
    // Exemption Indicator
    RECORD_ID,
    RECORD_ID,
    CHAR_2,
    DIGITS_13,
    DATE,
    DATE,
    CHAR_1,
    VARCHAR_9,
    NUMBER_4_0,
    CHAR_1,
    VARCHAR_4,
    NUMBER_3_0,
    NUMBER_15_6,
    VARCHAR_7,
    CHAR_1,
    NUMBER_9_6,
    NUMBER_19_12,
    NUMBER_11_2,
    CHAR_1,
    // Table 4-9, OC: 1 Record ID, 2 Parent ID, 3 Record Type, 4 Site ID, 5 Charge Date, 6 Cancel Indicator, 7 One-Time Charge Reference ID, 8 Cancel
    // Reason Code, 9 One-Time Charge Code, 10 Charge Amount, 11 GST Exemption Indicator
    RECORD_ID,
    RECORD_ID,
    CHAR_2,
    DIGITS_13,
    DATE,
    CHAR_1,
    RECORD_ID,
    NUMBER_4_0,
    VARCHAR_4,
    NUMBER_11_2,
    CHAR_1,
    RECORD_ID,
    RECORD_ID,
    RECORD_ID,
    RECORD_ID,
    RECORD_ID,
    RECORD_ID,
    RECORD_ID,
    RECORD_ID,
    // Table 4-10, FT: 1 Record ID, 2 Parent ID, 3 Record Type, 4 File Record Count, 5 Charge Total
    RECORD_ID,
    RECORD_ID,
    CHAR_2,
    NUMBER_9_0,
    NUMBER_11_2,
    RECORD_ID,
    RECORD_ID,
    RECORD_ID,
    RECORD_ID,
    RECORD_ID,
    RECORD_ID,
    RECORD_ID,
    RECORD_ID,
    RECORD_ID,
    RECORD_ID,
    RECORD_ID,
    RECORD_ID,
    RECORD_ID,
    RECORD_ID,
];

// The codes of the types of the fields of the record types, 19 a type.
pub fn codes() -> &'static [usize; 171]
    ensures { result.now ≡ joined code_rows }
{
    &CODES
}
