// Which bytes fit which type of field.

#![tactic(auto)]

ghost use Rattle.std.specs.Prelude.{◌≡◌};
ghost use Rattle.fields.specs.Fields.{fits_type};
ghost use Rattle.fields.specs.declared.FieldType.TheVariants.{DateTime};

// The types of Tables 4-2 to 4-10. An ID of fixed length is Digits.
#[derive(Clone, Copy)]
pub enum FieldType {
    RecordId,
    Digits(usize),
    Number(usize, usize),
    Date,
    DateTime,
    Char(usize),
    Varchar(usize),
}

// Whether some bytes fit DateTime. An empty field fits every type.
pub fn is_date_time(s: &[u8]) -> bool
    ensures { result ≡ fits_type DateTime s.now }
{
    if s.is_empty() {
        return true;
    }
    calendar::date_time_of(s).is_some()
}
