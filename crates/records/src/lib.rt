// The lines of a file, and records: a line's type and the places of its fields.

#![tactic(auto)]

ghost use Rattle.std.specs.Prelude.{◌≡◌, ◌≤◌, ◌<◌, length, take, cond, ltb};
ghost use Rattle.records.specs.Text.{lines_of};
ghost use Rattle.records.specs.InsidePlacedLines.{LineEnd, LinesFound, part, At, Placed};
ghost use Rattle.records.specs.InsideLineEnds.{line_ends};
ghost use Rattle.tables.specs.Types.{type_named};
ghost use Rattle.records.specs.Records.{field};
ghost use Rattle.records.specs.InsidePlacedFields.{number_among, field_among, fields_at, FieldsPlaced, RecordFound};

// The end of the line from a up to e, without a byte 13 where a byte 10 stands at e.
fn line_end(file: &[u8], a: usize, e: usize) -> usize
    requires { (a ≤ e) × (e ≤ length file.now) }
    ensures { LineEnd file.now a e result }
{
    if e < file.len() {
        if a < e {
            if file[e - 1] == b'\r' {
                return e - 1;
            }
        }
    }
    e
}

// Finds the places of the lines of a file and returns their number, or none where there is no room for all of them. A `while`: the bytes say where a line ends.
pub fn find_lines(file: &[u8], starts: &mut [usize], ends: &mut [usize]) -> Option<usize>
    ensures { LinesFound file.now starts.new ends.new result }
{
    let mut n: usize = 0;
    let mut a: usize = 0;
    while a < file.len() {
        if starts.len() <= n {
            return None;
        }
        if ends.len() <= n {
            return None;
        }
        let e = a + lists::find_far(&file[a..], b'\n');
        let stop = line_end(file, a, e);
        starts[n] = a;
        ends[n] = stop;
        n += 1;
        a = e + 1;
    }
    Some(n)
}

// A file whose n lines are found.
#[derive(Clone, Copy)]
pub struct FoundLines<'a> {
    pub bytes: &'a [u8],
    pub starts: &'a [usize],
    pub ends: &'a [usize],
    pub n: usize,
    pub ghost placed: { Placed bytes.now n starts.now ends.now (lines_of bytes.now) },
}

// How many bytes 10 stand in few bytes. 8 bits count them, so that many bytes are compared at once.
fn ends_in(s: &[u8]) -> u8
    requires { length s.now ≤ 255 }
    ensures { result ≡ line_ends s.now }
{
    let mut count: u8 = 0;
    for i in 0..s.len() {
        if s[i] == b'\n' {
            count += 1;
        }
    }
    count
}

// How many bytes 10 a file has: it has at most one line more. They are counted in blocks, of each of which 8 bits hold the count.
// No function of this repository calls it; its promise and the must-fail edit of it stand.
pub fn line_ends(file: &[u8]) -> usize
    ensures { result ≡ line_ends file.now }
{
    let blocks = file.len() / 128;
    let mut count: usize = 0;
    for k in 0..blocks {
        count += usize::from(ends_in(&file[k * 128..k * 128 + 128]));
    }
    count + usize::from(ends_in(&file[blocks * 128..]))
}

// A record's type is its place among FH, SH, TH, DU, DD, DM, CH, OC, FT, or 9. A line of more than 24 fields has type 9 and count 0.
#[derive(Clone, Copy)]
pub struct Record {
    pub record_type: u64,
    pub count: usize,
    pub starts: [usize; 24],
    pub ends: [usize; 24],
}

// The type that the third of n fields names, which stands from a to e.
fn third(file: &[u8], n: usize, a: usize, e: usize) -> u64
    requires { 2 < n → (a ≤ e) × (e ≤ length file.now) }
    ensures { result ≡ cond (ltb 2 n) (type_named (part file.now a e)) 9 }
{
    if n < 3 {
        return tables::NO_TYPE;
    }
    tables::type_named(&file[a..e])
}

// The record of the line from start to end.
pub fn record_at(file: &[u8], start: usize, end: usize) -> Record
    requires { (start ≤ end) × (end ≤ length file.now) }
    ensures { RecordFound file.now (part file.now start end) result }
{
    let mut starts = [0usize; 24];
    let mut ends = [0usize; 24];
    let mut a = start;
    for n in 0..24 {
        let e = a + lists::find(&file[a..end], b',');
        starts[n] = a;
        ends[n] = e;
        if e == end {
            let count = n + 1;
            let record_type = third(file, count, starts[2], ends[2]);
            return Record {
                record_type,
                count,
                starts,
                ends,
            };
        }
        a = e + 1;
    }
    Record {
        record_type: tables::NO_TYPE,
        count: 0,
        starts,
        ends,
    }
}

// Where a field stands: its start and its end.
#[derive(Clone, Copy)]
pub struct Place(pub usize, pub usize);

// The place of field k, counted from 1, of a record whose fields stand at the first count of starts and ends; 0 to 0 where there is none.
fn place_among<'a>(starts: &'a [usize; 24], ends: &'a [usize; 24], count: usize, k: usize) -> Place
    requires { count ≤ 24 }
    ensures { (result.0 ≡ number_among (take count starts.now) k) × (result.1 ≡ number_among (take count ends.now) k) }
{
    if k == 0 {
        return Place(0, 0);
    }
    if count < k {
        return Place(0, 0);
    }
    Place(starts[k - 1], ends[k - 1])
}

// Field k, counted from 1, of a record whose fields stand at the first count of starts and ends; empty where there is none.
pub fn field_among<'a, 'b>(
    file: &'a [u8],
    starts: &'b [usize; 24],
    ends: &'b [usize; 24],
    count: usize,
    k: usize,
) -> &'a [u8]
    requires { FieldsPlaced file.now count starts.now ends.now }
    ensures { result.now ≡ field_among (fields_at file.now count starts.now ends.now) k }
{
    let place = place_among(starts, ends, count, k);
    let a = place.0;
    let e = place.1;
    &file[a..e]
}

// The place of field k, counted from 1, of the line from a to e; an empty part where the record has no such field.
pub fn field_at(file: &[u8], a: usize, e: usize, k: usize) -> Place
    requires { (a ≤ e) × (e ≤ length file.now) }
    ensures { At file.now result.0 result.1 (field k (part file.now a e)) }
{
    let r = record_at(file, a, e);
    let count = r.count;
    place_among(&r.starts, &r.ends, count, k)
}
