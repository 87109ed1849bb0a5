// Columns: the numbers and amounts of each record. Which field each of them holds, and one column of all.

#![tactic(auto)]

ghost use Rattle.std.specs.Prelude.{◌≡◌, ◌*◌, ◌≤◌, ◌<◌, length};
ghost use Rattle.columns.specs.InsideColumns.{column_at};
ghost use Rattle.columns.specs.InsideRows.{column_fields};

// The columns of numbers. After them stand the two of amounts.
pub const RECORD_TYPE: usize = 0;

pub const RECORD_ID: usize = 1;

pub const PARENT_ID: usize = 2;

pub const SITE: usize = 3;

pub const REFERENCE: usize = 4;

pub const START_DAY: usize = 5;

pub const END_DAY: usize = 6;

pub const CANCEL: usize = 7;

// Which field of a record type each column reads, counted from 1, a row for each type; 0 says none.
const FIELDS: [[usize; 10]; 9] = [
    [3, 1, 2, 0, 0, 0, 0, 0, 0, 0],
    [3, 1, 2, 4, 0, 5, 6, 0, 14, 12],
    [3, 1, 2, 4, 8, 5, 6, 7, 14, 12],
    [3, 1, 2, 4, 0, 5, 6, 7, 0, 16],
    [3, 1, 2, 4, 0, 5, 6, 7, 0, 0],
    [3, 1, 2, 4, 0, 5, 6, 7, 0, 0],
    [3, 1, 2, 4, 0, 5, 6, 7, 18, 0],
    [3, 1, 2, 4, 7, 0, 0, 6, 10, 0],
    [3, 1, 2, 0, 0, 0, 0, 0, 5, 0],
];

// The fields of the columns.
pub fn column_fields() -> &'static [[usize; 10]; 9]
    ensures { result.now ≡ column_fields }
{
    &FIELDS
}

// A column of n numbers, of the columns that have room for so many lines.
pub fn column(words: &[u64], room: usize, column: usize, n: usize) -> &[u64]
    requires { (length words.now ≡ 8 * room) × (room ≤ 4096) × (column < 8) × (n ≤ room) }
    ensures { result.now ≡ column_at room column n words.now }
{
    let a = column * room;
    &words[a..a + n]
}
