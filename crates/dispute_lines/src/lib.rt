// The line of a tariff bill dispute (TBD) transaction, laid out as Table 4-14: what one says, in specs/, and how one is written.

#![tactic(auto)]

ghost use Rattle.std.specs.Prelude.{◌≡◌, List, ℕ, ◌+◌, ◌≤◌, ◌<◌, length};
ghost use Rattle.writing.specs.InsideWriting.{written_at};
ghost use Rattle.written_lines.specs.InsidePut.{Put};
ghost use Rattle.written_lines.specs.Lines.{line_of};
ghost use Rattle.dispute_lines.specs.InsideHalves.{id_shown, first_fields, last_fields, start_of};
ghost use Rattle.dispute_lines.specs.Line.{dispute_line};

// What a dispute says in numbers. It is of a period, or of a one-time charge (`once`), whose Record ID is `id`; `file` is the Tariff Bill File Record ID.
// Both kinds have the same fields, so that the kind is a flag: an enum would be no plainer.
#[derive(Clone, Copy)]
pub struct Dispute {
    pub transaction: u64,
    pub retailer: u64,
    pub distributor: u64,
    pub file: u64,
    pub site: u64,
    pub once: bool,
    pub id: u64,
    pub code: u64,
}

// A field that is read: 1 and the number that its digits write, or 0 and 0 where it is empty (the C interface has no Option).
#[repr(C)]
#[derive(Clone, Copy)]
pub struct DisputeField {
    pub filled: u64,
    pub value: u64,
}

// The same of the Dispute Code, whose type, Number(4), has a minus.
#[repr(C)]
#[derive(Clone, Copy)]
pub struct CodeField {
    pub filled: u64,
    pub value: i64,
}

// The answer to a host that reads a dispute: document 01's number, and where it is 0 the fields 2 to 11 of Table 4-14.
#[repr(C)]
#[derive(Clone, Copy)]
pub struct DisputeReply {
    pub number: u64,
    pub transaction: DisputeField,
    pub retailer: DisputeField,
    pub distributor: DisputeField,
    pub created: DisputeField,
    pub file: DisputeField,
    pub site: DisputeField,
    pub period: DisputeField,
    pub child: DisputeField,
    pub charge: DisputeField,
    pub code: CodeField,
}

const COMMA: u8 = 44;

const LINE_END: u8 = 10;

// A Record ID, or an empty field where there is none.
fn put_id(out: &mut [u8], at: usize, id: Option<u64>) -> usize
    requires { at + length (id_shown id) < length out.old }
    ensures { Put out.old at (id_shown id) 44 out.new result }
{
    match id {
        Some(id) => written_lines::put_plain(out, at, id, COMMA),
        None => written_lines::put_bytes(out, at, b"", COMMA),
    }
}

// How many bytes the line has, with a Date Created of 14: those of three numbers without leading zeros, and 58 that every line has.
pub fn line_length(d: Dispute) -> usize
    ensures { (created : List ℕ) → length created ≡ 14 → result ≡ length (dispute_line d created) }
{
    writing::digit_count(d.transaction)
        + writing::digit_count(d.file)
        + writing::digit_count(d.id)
        + 58
}

// Fields 1 to 6, each with its comma, at the start of `out`; returns the place after them.
fn put_first_fields(out: &mut [u8], d: Dispute, created: &[u8]) -> usize
    requires { length (start_of (first_fields d created.now)) ≤ length out.old }
    ensures { (out.new ≡ written_at out.old 0 (start_of (first_fields d created.now))) × (result ≡ length (start_of (first_fields d created.now))) }
{
    let at2 = written_lines::put_bytes(out, 0, b"TBD", COMMA);
    let at3 = written_lines::put_plain(out, at2, d.transaction, COMMA);
    let at4 = written_lines::put_digits(out, at3, 9, d.retailer, COMMA);
    let at5 = written_lines::put_digits(out, at4, 4, d.distributor, COMMA);
    let at6 = written_lines::put_bytes(out, at5, created, COMMA);
    written_lines::put_plain(out, at6, d.file, COMMA)
}

// Fields 7 to 11, which end the line, from place `at` on; returns the place after them.
fn put_last_fields(out: &mut [u8], at: usize, d: Dispute) -> usize
    requires { at + length (line_of 44 (last_fields d)) ≤ length out.old }
    ensures { (out.new ≡ written_at out.old at (line_of 44 (last_fields d))) × (result ≡ at + length (line_of 44 (last_fields d))) }
{
    let at8 = written_lines::put_digits(out, at, 13, d.site, COMMA);
    let at9 = put_id(out, at8, (!d.once).then_some(d.id));
    let at10 = written_lines::put_bytes(out, at9, b"", COMMA);
    let at11 = put_id(out, at10, d.once.then_some(d.id));
    written_lines::put_digits(out, at11, 4, d.code, LINE_END)
}

// The line of a dispute, at the start of `out`; returns its length.
pub fn write_dispute(out: &mut [u8], d: Dispute, created: &[u8]) -> usize
    requires { length (dispute_line d created.now) ≤ length out.old }
    ensures { (out.new ≡ written_at out.old 0 (dispute_line d created.now)) × (result ≡ length (dispute_line d created.now)) }
{
    let at = put_first_fields(out, d, created);
    put_last_fields(out, at, d)
}
