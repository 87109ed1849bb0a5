// One line of a tariff bill dispute (TBD) transaction, read: test 2, then test 3, then what its fields say.

#![tactic(auto)]

ghost use Rattle.std.specs.Prelude.{◌≡◌, ◌≤◌, length};
ghost use Rattle.fields.specs.declared.FieldType.TheVariants.{DateTime};
ghost use Rattle.records.specs.InsidePlacedLines.{part};
ghost use Rattle.records.specs.InsidePlacedFields.{field_among, fields_at, FieldsPlaced};
ghost use Rattle.dispute_lines.specs.Reading.{read_fields, read_line, read_dispute, dispute_reply};
ghost use Rattle.dispute_reader.specs.InsideSaid.{digits_type, number_of, Told, CodeTold, SenderTold, SubjectTold, FieldsTold, reply_of};

use amounts::Amount;
use dispute_lines::{CodeField, DisputeField, DisputeReply};
use records::Record;

// Why a line is refused: it is no dispute, or a field misses its type.
#[derive(Clone, Copy)]
enum Refusal {
    NoDispute,
    Misfit,
}

impl Refusal {
    // Document 01's number of the refusal.
    fn number(self) -> u64
        ensures { result ≡ number_of self }
    {
        match self {
            Refusal::NoDispute => 2,
            Refusal::Misfit => 3,
        }
    }
}

// Who sent a line and when, in fields that fit their types.
#[derive(Clone, Copy)]
pub struct Sender {
    pub transaction: DisputeField,
    pub retailer: DisputeField,
    pub distributor: DisputeField,
    pub created: DisputeField,
}

// The same of what a line disputes.
#[derive(Clone, Copy)]
pub struct Subject {
    pub file: DisputeField,
    pub site: DisputeField,
    pub period: DisputeField,
    pub child: DisputeField,
    pub charge: DisputeField,
}

// An empty field.
const EMPTY: DisputeField = DisputeField {
    filled: 0,
    value: 0,
};

// The same of the Dispute Code.
const NO_CODE: CodeField = CodeField {
    filled: 0,
    value: 0,
};

// An ID of just so many digits; of 1 to 15 where `width` is 0.
fn digits_said(s: &[u8], width: usize) -> Option<DisputeField>
    ensures { Told (digits_type width) s.now result }
{
    if s.is_empty() {
        return Some(EMPTY);
    }
    if width != 0 && s.len() != width {
        return None;
    }
    let value = digits::digits(s)?;
    Some(DisputeField { filled: 1, value })
}

// A date time: its 14 digits as one number.
fn moment_said(s: &[u8]) -> Option<DisputeField>
    ensures { Told DateTime s.now result }
{
    if s.is_empty() {
        return Some(EMPTY);
    }
    calendar::date_time_of(s)?;
    digits_said(s, 14)
}

// The Dispute Code: Number(4).
fn code_said(s: &[u8]) -> Option<CodeField>
    ensures { CodeTold s.now result }
{
    match amounts::amount_of(s, 4, 0) {
        Amount::Missing => Some(NO_CODE),
        Amount::Value(value) => Some(CodeField { filled: 1, value }),
        Amount::Misses => None,
    }
}

// Field k of a record whose fields stand at eleven places: an ID of just so many digits; of 1 to 15 where `width` is 0.
fn digits_at(bytes: &[u8], line: &Record, k: usize, width: usize) -> Option<DisputeField>
    requires { FieldsPlaced bytes.now 11 line.now.starts line.now.ends }
    ensures { Told (digits_type width) (field_among (fields_at bytes.now 11 line.now.starts line.now.ends) k) result }
{
    digits_said(
        records::field_among(bytes, &line.starts, &line.ends, 11, k),
        width,
    )
}

// Who sent a line and when, its fields 2 to 5.
fn read_sender(bytes: &[u8], line: &Record) -> Option<Sender>
    requires { FieldsPlaced bytes.now 11 line.now.starts line.now.ends }
    ensures { SenderTold (fields_at bytes.now 11 line.now.starts line.now.ends) result }
{
    let transaction = digits_at(bytes, line, 2, 0)?;
    let retailer = digits_at(bytes, line, 3, 9)?;
    let distributor = digits_at(bytes, line, 4, 4)?;
    let created = moment_said(records::field_among(bytes, &line.starts, &line.ends, 11, 5))?;
    Some(Sender {
        transaction,
        retailer,
        distributor,
        created,
    })
}

// What a line disputes, its fields 6 to 10.
fn read_subject(bytes: &[u8], line: &Record) -> Option<Subject>
    requires { FieldsPlaced bytes.now 11 line.now.starts line.now.ends }
    ensures { SubjectTold (fields_at bytes.now 11 line.now.starts line.now.ends) result }
{
    let file = digits_at(bytes, line, 6, 0)?;
    let site = digits_at(bytes, line, 7, 13)?;
    let period = digits_at(bytes, line, 8, 0)?;
    let child = digits_at(bytes, line, 9, 0)?;
    let charge = digits_at(bytes, line, 10, 0)?;
    Some(Subject {
        file,
        site,
        period,
        child,
        charge,
    })
}

// The fields of a line that stand at eleven places: test 3, and what they say.
fn read_fields(bytes: &[u8], line: &Record) -> Option<DisputeReply>
    requires { FieldsPlaced bytes.now 11 line.now.starts line.now.ends }
    ensures { FieldsTold (fields_at bytes.now 11 line.now.starts line.now.ends) result }
{
    let sender = read_sender(bytes, line)?;
    let subject = read_subject(bytes, line)?;
    let code = code_said(records::field_among(bytes, &line.starts, &line.ends, 11, 11))?;
    Some(DisputeReply {
        number: 0,
        transaction: sender.transaction,
        retailer: sender.retailer,
        distributor: sender.distributor,
        created: sender.created,
        file: subject.file,
        site: subject.site,
        period: subject.period,
        child: subject.child,
        charge: subject.charge,
        code,
    })
}

// The line from a to e: test 2, then its fields.
fn read_line(bytes: &[u8], a: usize, e: usize) -> Result<DisputeReply, Refusal>
    requires { (a ≤ e) × (e ≤ length bytes.now) }
    ensures { reply_of result ≡ dispute_reply (read_line (part bytes.now a e)) }
{
    if format::has_unprintable(&bytes[a..e]) {
        return Err(Refusal::NoDispute);
    }
    let record = records::record_at(bytes, a, e);
    if record.count != 11 {
        return Err(Refusal::NoDispute);
    }
    if !lists::same_bytes(
        records::field_among(bytes, &record.starts, &record.ends, 11, 1),
        b"TBD",
    ) {
        return Err(Refusal::NoDispute);
    }
    read_fields(bytes, &record).ok_or(Refusal::Misfit)
}

// The one line that the bytes are.
fn read_one_line(bytes: &[u8]) -> Result<DisputeReply, Refusal>
    ensures { reply_of result ≡ dispute_reply (read_dispute bytes.now) }
{
    let mut starts = [0usize; 1];
    let mut ends = [0usize; 1];
    let Some(n) = records::find_lines(bytes, &mut starts, &mut ends) else {
        return Err(Refusal::NoDispute);
    };
    if n != 1 {
        return Err(Refusal::NoDispute);
    }
    read_line(bytes, starts[0], ends[0])
}

// The answer of a refusal: every field is empty.
fn refused(refusal: Refusal) -> DisputeReply
    ensures { result ≡ reply_of (Err refusal) }
{
    DisputeReply {
        number: refusal.number(),
        transaction: EMPTY,
        retailer: EMPTY,
        distributor: EMPTY,
        created: EMPTY,
        file: EMPTY,
        site: EMPTY,
        period: EMPTY,
        child: EMPTY,
        charge: EMPTY,
        code: NO_CODE,
    }
}

// One line, its end as a bill file's.
pub fn read_dispute(bytes: &[u8]) -> DisputeReply
    ensures { result ≡ dispute_reply (read_dispute bytes.now) }
{
    read_one_line(bytes).unwrap_or_else(refused)
}
