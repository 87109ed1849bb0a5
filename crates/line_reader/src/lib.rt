// The reader: each line of a file is read once, and each field of it once, as its end is found. It answers the first line that fails test 2 or 3;
// where none does, the first lines that fail 5, 6 and 7, what the header and the trailer say, and the columns.

#![tactic(auto)]

ghost use Rattle.std.specs.Prelude.{◌≡◌, true, false, cond, ℕ, ◌≤◌, ◌<◌, ◌&&◌, not, eqb, length, set, get_or, replicate};
ghost use Rattle.lists.specs.Written.{written};
ghost use Rattle.records.specs.Text.{lines_of};
ghost use Rattle.records.specs.InsidePlacedLines.{part};
ghost use Rattle.columns.specs.InsideColumns.{Room};
ghost use Rattle.tables.specs.Types.{TH};
ghost use Rattle.tables.specs.InsideCodes.{type_of_code};
ghost use Rattle.readings.specs.InsideLeadingBytes.{packed};
ghost use Rattle.readings.specs.InsideReadings.{is_narrow};
ghost use Rattle.format.specs.Format.{line_at, unformatted, first_unformatted};
ghost use Rattle.line_reader.specs.InsideLineReader.{head_filled, LineLent, HeadTold, LineKept, NextTold, LinesTold};

use conditional_fields::is_unpopulated;
use readings::Reading;
use records::{FoundLines, Record};

// What is answered of a file's lines: the line at which the reader stopped, or their number; then, where it read them all, the first lines that fail
// tests 5, 6 and 7, the numbers that fields 4, 5 and 6 of the first line and field 4 of the last say, and whether the last TH has Site Status Code E.
#[derive(Clone, Copy)]
pub struct LinesRead {
    pub stopped: usize,
    pub unfilled: usize,
    pub unpopulated: usize,
    pub miscoded: usize,
    pub retailer: u64,
    pub sender: u64,
    pub commodity: u64,
    pub counted: u64,
    pub energized: bool,
}

// A record's type, where its first three fields end, and whether they are filled as they must be.
#[derive(Clone, Copy)]
struct Head {
    record_type: u64,
    id_end: usize,
    parent_end: usize,
    type_end: usize,
    filled: bool,
}

// Whether the Record ID is filled, and the Parent ID is, but for FH, whose is empty. A type that is known fills the third field.
fn head_filled(record_type: u64, id_len: usize, parent_len: usize) -> bool
    ensures { result ≡ head_filled record_type id_len parent_len }
{
    if id_len == 0 {
        return false;
    }
    if record_type == tables::FH {
        return parent_len == 0;
    }
    parent_len != 0
}

// The first three fields of the line from a to e: its IDs and its type; none where a byte of the line is unprintable, a field does not fit, there are fewer,
// or the type is unknown.
fn read_head(file: &[u8], a: usize, e: usize, numbers: &mut [u64; 24]) -> Option<Head>
    requires { LineLent file.now a e numbers.old }
    ensures { HeadTold file.now (part file.now a e) a e numbers.new result }
{
    if format::has_unprintable(&file[a..e]) {
        return None;
    }
    let id = readings::read_id(&file[a..e])?;
    let id_end = a + id.len;
    if e <= id_end {
        return None;
    }
    let b = id_end + 1;
    let parent = readings::read_id(&file[b..e])?;
    let parent_end = b + parent.len;
    if e <= parent_end {
        return None;
    }
    let d = parent_end + 1;
    let name = readings::read_char(&file[d..e], 2)?;
    let type_end = d + name.len;
    let record_type = tables::type_named(&file[d..type_end]);
    if tables::NO_TYPE <= record_type {
        return None;
    }
    let filled = head_filled(record_type, id.len, parent.len);
    numbers[1] = id.number;
    numbers[2] = parent.number;
    numbers[3] = name.number;
    Some(Head {
        record_type,
        id_end,
        parent_end,
        type_end,
        filled,
    })
}

// A record whose fields are not read yet.
fn no_record() -> Record
    ensures { (result.record_type ≡ 9) × (result.count ≡ 0) × (result.starts ≡ replicate 24 0) × (result.ends ≡ replicate 24 0) }
{
    Record {
        record_type: tables::NO_TYPE,
        count: 0,
        starts: [0; 24],
        ends: [0; 24],
    }
}

// The first three fields are read at once, by read_head: stores where they begin, or where they end.
fn place_three(places: &mut [usize; 24], first: usize, second: usize, third: usize)
    ensures { places.new ≡ set (set (set places.old 0 first) 1 second) 2 third }
{
    places[0] = first;
    places[1] = second;
    places[2] = third;
}

// What is kept before the first of n lines is read.
fn none_read(n: usize) -> LinesRead
    ensures { (result.stopped ≡ 0) × (result.unfilled ≡ n) × (result.unpopulated ≡ n) × (result.miscoded ≡ n) × (result.energized ≡ false) }
{
    LinesRead {
        stopped: 0,
        unfilled: n,
        unpopulated: n,
        miscoded: n,
        retailer: 0,
        sender: 0,
        commodity: 0,
        counted: 0,
        energized: false,
    }
}

// What the first line says: it is line i, or was read before.
fn of_first(i: usize, said: u64, before: u64) -> u64
    ensures { result ≡ cond (eqb i 0) said before }
{
    if i == 0 {
        return said;
    }
    before
}

// The Site Status Code E, as the reader packs a text, and the field of TH that has it.
const ENERGIZED: u64 = 69;

const TH_STATUS: usize = 11;

// Whether the nearest TH has Site Status Code E: it is this record, or was read before.
fn nearest_energized(record_type: u64, status: u64, before: bool) -> bool
    ensures { result ≡ cond (eqb record_type TH) (eqb status (packed (written "E"))) before }
{
    if record_type == tables::TH {
        return status == ENERGIZED;
    }
    before
}

// What is kept of the lines with one more, line read.stopped of n: a record of a type, by whether it is filled, whether it lacks a conditional field, and its
// fields' numbers.
fn with_line(
    read: LinesRead,
    n: usize,
    record_type: u64,
    filled: bool,
    unpopulated: bool,
    numbers: &[u64; 24],
) -> LinesRead
    requires { read.stopped < n }
    ensures { LineKept read n record_type filled unpopulated numbers.now result }
{
    let i = read.stopped;
    let commodity = of_first(i, numbers[6], read.commodity);
    let coded = codes_and_rows::codes_stand(record_type, numbers, commodity);
    LinesRead {
        stopped: i + 1,
        unfilled: lists::first_so_far(!filled, read.unfilled, n, i),
        unpopulated: lists::first_so_far(unpopulated, read.unpopulated, n, i),
        miscoded: lists::first_so_far(!coded, read.miscoded, n, i),
        retailer: of_first(i, numbers[4], read.retailer),
        sender: of_first(i, numbers[5], read.sender),
        commodity,
        counted: numbers[4],
        energized: nearest_energized(record_type, numbers[TH_STATUS], read.energized),
    }
}

// The field that begins at a, of a line that ends at e and has no field past its end.
fn read_next(code: usize, file: &[u8], a: usize, e: usize) -> Option<Reading>
    requires { (is_narrow (type_of_code code) ≡ true) × (e ≤ length file.now) }
    ensures { NextTold (type_of_code code) file.now a e result }
{
    if e < a {
        return None;
    }
    readings::read_field(code, &file[a..e])
}

// Whether the fields that are read are filled as they must be, with one more whose mark stands at a place: a marked field must not be empty.
fn still_filled(filled: bool, marks: &[bool; 171], place: usize, len: usize) -> bool
    requires { place < 171 }
    ensures { result ≡ (filled && not (eqb len 0 && get_or marks.now place false)) }
{
    if len == 0 {
        return filled & !marks[place];
    }
    filled
}

// Reads each of a file's lines, into the columns, up to the first that fails test 2 or 3: `stopped` of the answer.
pub fn read_lines(
    lines: &FoundLines,
    words: &mut [u64],
    charges: &mut [u64],
    usages: &mut [u64],
) -> LinesRead
    requires some { 1 ≤ lines.now.n }
    requires room { Room lines.now.n words.old charges.old usages.old × (length charges.old ≤ 4096) }
    ensures { LinesTold (lines_of lines.now.bytes.now) words.new charges.new usages.new result }
{
    let file = lines.bytes;
    let n = lines.n;
    let codes = tables::codes();
    let marks = tables::marks();
    let mut numbers = [0u64; 24];
    let mut record = no_record();
    let mut read = none_read(n);
    'records: for i in 0..n {
        let start = lines.starts[i];
        let e = lines.ends[i];
        let Some(head) = read_head(file, start, e, &mut numbers) else {
            break 'records;
        };
        let record_type = head.record_type;
        let id_end = head.id_end;
        let parent_end = head.parent_end;
        place_three(&mut record.starts, start, id_end + 1, parent_end + 1);
        place_three(&mut record.ends, id_end, parent_end, head.type_end);
        let count = tables::field_count(record_type);
        let row = record_type as usize * 19;
        let mut filled = head.filled;
        let mut a = head.type_end + 1;
        for k in 3..count {
            let Some(field) = read_next(codes[row + k], file, a, e) else {
                break 'records;
            };
            let len = field.len;
            filled = still_filled(filled, marks, row + k, len);
            record.starts[k] = a;
            record.ends[k] = a + len;
            numbers[k + 1] = field.number;
            a = a + len + 1;
        }
        if a <= e {
            break 'records;
        }
        record.record_type = record_type;
        record.count = count;
        let lacks = is_unpopulated(
            record_type,
            &numbers,
            &record.starts,
            &record.ends,
            read.energized,
        );
        codes_and_rows::store_line(&numbers, record_type, words, charges, usages, i);
        read = with_line(read, n, record_type, filled, lacks, &numbers);
    }
    read
}

// The first line that fails test 2, or n, where none before `from` does.
pub fn first_unformatted(lines: &FoundLines, from: usize) -> usize
    requires inside { from ≤ lines.now.n }
    requires by_index { (i : ℕ) → i < from → unformatted (line_at (lines_of lines.now.bytes.now) i) ≡ false }
    ensures { result ≡ first_unformatted (lines_of lines.now.bytes.now) }
{
    for i in from..lines.n {
        if format::is_unformatted(lines.bytes, lines.starts[i], lines.ends[i]) {
            return i;
        }
    }
    lines.n
}
