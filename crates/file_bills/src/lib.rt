// The TH and OC of a file, and the file's own entry, from the columns: what Book's tests and its entries rest on.

#![tactic(auto)]

ghost use Rattle.std.specs.Prelude.{◌≡◌, true, cond, ◌||◌, ◌+◌, ◌-◌, ◌*◌, ◌≤◌, ◌<◌, eqb, pos, length, get_or};
ghost use Rattle.lists.specs.Bytes.{same_bytes};
ghost use Rattle.lists.specs.Written.{written};
ghost use Rattle.records.specs.Text.{lines_of};
ghost use Rattle.amounts.specs.Amounts.{or_zero};
ghost use Rattle.columns.specs.Columns.{number_in, charge_in, usage_in};
ghost use Rattle.format.specs.Format.{line_at};
ghost use Rattle.refusals.specs.InsideRead.{Read};
ghost use Rattle.tables.specs.Types.{TH, OC};
ghost use Rattle.records.specs.Records.{field};
ghost use Rattle.digits.specs.Digits.{digits_of};
ghost use Rattle.booking.specs.Booking.{file_entry};
ghost use Rattle.bill_files.specs.Accepted.{sender_in, commodity_in, is_bill, bill_in, number_or_zero, bill_file};
ghost use Rattle.file_bills.specs.InsideBills.{source_entry, blank_source};
ghost use Rattle.file_bills.specs.InsideReading.{Reading};

use columns::{CANCEL, END_DAY, RECORD_ID, RECORD_TYPE, REFERENCE, SITE, START_DAY};
use entries::Entry;

// A file whose n lines are found, and the columns that were read of them.
#[derive(Clone, Copy)]
pub struct ReadFile<'a> {
    pub bytes: &'a [u8],
    pub starts: &'a [usize],
    pub ends: &'a [usize],
    pub n: usize,
    pub words: &'a [u64],
    pub charges: &'a [u64],
    pub usages: &'a [u64],
    pub ghost read: { Read bytes.now n starts.now ends.now words.now charges.now usages.now },
}

// A TH or OC as Book's tests and its entries take it: its entry, its Reference ID, which stands as itself and one with 0 for none, and its line.
#[derive(Clone, Copy)]
pub struct SourceBill {
    pub entry: Entry,
    pub reference: u64,
    pub line: usize,
}

// What a place for a TH or OC holds before one is read into it.
pub fn blank_source() -> SourceBill
    ensures { result ≡ blank_source }
{
    SourceBill {
        entry: entries::blank(),
        reference: 0,
        line: 0,
    }
}

impl<'a> ReadFile<'a> {
    // Line i.
    fn line(&self, i: usize) -> &[u8]
        requires { i < self.now.n }
        ensures { result.now ≡ line_at (lines_of self.now.bytes.now) i }
    {
        &self.bytes[self.starts[i]..self.ends[i]]
    }

    // The number of a column at line i.
    fn number(&self, column: usize, i: usize) -> u64
        requires { (column < 8) × (i < self.now.n) }
        ensures { result ≡ number_in column (line_at (lines_of self.now.bytes.now) i) }
    {
        let numbers = columns::column(self.words, self.charges.len(), column, self.n);
        numbers[i]
    }

    // The charge of line i, or 0.
    fn charge(&self, i: usize) -> i64
        requires { i < self.now.n }
        ensures { result ≡ or_zero (charge_in (line_at (lines_of self.now.bytes.now) i)) }
    {
        amounts::said(self.charges[i]).or_zero()
    }

    // The usage of line i, or 0.
    fn usage(&self, i: usize) -> i64
        requires { i < self.now.n }
        ensures { result ≡ or_zero (usage_in (line_at (lines_of self.now.bytes.now) i)) }
    {
        amounts::said(self.usages[i]).or_zero()
    }

    // Whether line i is a TH or an OC.
    fn is_bill(&self, i: usize) -> bool
        requires { i < self.now.n }
        ensures { result ≡ is_bill (line_at (lines_of self.now.bytes.now) i) }
    {
        let record_type = self.number(RECORD_TYPE, i);
        (record_type == tables::TH) | (record_type == tables::OC)
    }

    // The entry of line i, a TH or OC.
    fn bill_entry(&self, i: usize, sender: u64, commodity: u64) -> Entry
        requires bill { (i < self.now.n) × (is_bill (line_at (lines_of self.now.bytes.now) i) ≡ true) }
        requires sender_value { let header = line_at (lines_of self.now.bytes.now) 0 in (sender ≡ sender_in header) × (commodity ≡ commodity_in header) }
        ensures { let lines = lines_of self.now.bytes.now in result ≡ source_entry (bill_in (line_at lines 0) (line_at lines i)) }
    {
        let is_period = self.number(RECORD_TYPE, i) == tables::TH;
        let is_cancel = self.number(CANCEL, i) == 1;
        let id = self.number(RECORD_ID, i).saturating_sub(1);
        let site = self.number(SITE, i).saturating_sub(1);
        let start = self.number(START_DAY, i).saturating_sub(1);
        let end = self.number(END_DAY, i).saturating_sub(1);
        let reference = self.number(REFERENCE, i).saturating_sub(1);
        let usage = self.usage(i);
        Entry {
            sender,
            commodity,
            kind: if is_period {
                entries::PERIOD
            } else {
                entries::ONE_TIME_CHARGE
            },
            id,
            site,
            start: if is_period { start } else { 0 },
            end: if is_period { end } else { 0 },
            charge: self.charge(i),
            usage: if is_period { usage } else { 0 },
            state: if is_cancel {
                entries::CANCEL
            } else {
                entries::LIVE
            },
            cancels: if is_cancel { reference } else { 0 },
        }
    }
}

// Puts the record of line i, where it is a TH or OC, after the m that were read. Answers how many are read.
fn read_bill(
    file: &ReadFile,
    i: usize,
    sender: u64,
    commodity: u64,
    bills: &mut [SourceBill],
    m: usize,
) -> usize
    requires line { i < file.now.n }
    requires sender_value { let header = line_at (lines_of file.now.bytes.now) 0 in (sender ≡ sender_in header) × (commodity ≡ commodity_in header) }
    requires bill_room { (file.now.n ≤ length bills.old) × Reading (lines_of file.now.bytes.now) i m bills.old }
    ensures { Reading (lines_of file.now.bytes.now) (i + 1) result bills.new }
{
    if !file.is_bill(i) {
        return m;
    }
    bills[m] = SourceBill {
        entry: file.bill_entry(i, sender, commodity),
        reference: file.number(REFERENCE, i),
        line: i + 1,
    };
    m + 1
}

// The TH and OC of a file, in file order. Answers how many there are.
pub fn read_bills(file: &ReadFile, sender: u64, commodity: u64, bills: &mut [SourceBill]) -> usize
    requires sender_value { let header = line_at (lines_of file.now.bytes.now) 0 in (sender ≡ sender_in header) × (commodity ≡ commodity_in header) }
    requires bill_room { file.now.n ≤ length bills.old }
    ensures { Reading (lines_of file.now.bytes.now) file.now.n result bills.new }
{
    let mut m: usize = 0;
    for i in 0..file.n {
        m = read_bill(file, i, sender, commodity, bills, m);
    }
    m
}

// The number in a field of a line, or 0.
fn number_in(line: &[u8], k: usize) -> u64
    ensures { result ≡ number_or_zero (digits_of (field k line.now)) }
{
    let place = records::field_at(line, 0, line.len(), k);
    digits::digits(&line[place.0..place.1]).unwrap_or(0)
}

// Whether a file's first line names electricity as the commodity.
fn is_electric(line: &[u8]) -> bool
    ensures { result ≡ same_bytes (field 6 line.now) (written "EL") }
{
    let place = records::field_at(line, 0, line.len(), 6);
    lists::same_bytes(&line[place.0..place.1], b"EL")
}

// The file's own entry.
pub fn read_header(file: &ReadFile) -> Entry
    ensures { result ≡ file_entry (bill_file (lines_of file.now.bytes.now)) }
{
    let line = file.line(0);
    let commodity = if is_electric(line) {
        entries::ELECTRICITY
    } else {
        entries::NATURAL_GAS
    };
    let charge = file.charge(file.n - 1);
    Entry {
        sender: number_in(line, 5),
        commodity,
        kind: entries::FILE,
        id: number_in(line, 1),
        site: 0,
        start: 0,
        end: 0,
        charge,
        usage: 0,
        state: 0,
        cancels: 0,
    }
}
