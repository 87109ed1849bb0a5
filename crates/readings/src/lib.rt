// Readings: the field at the start of a line's bytes, read in one pass: where it ends, whether it fits its type, and what it says as one number.
// A reading is certain: it fits where the field does, and where the field does not fit it does not.

#![tactic(auto)]

ghost use Rattle.std.specs.Prelude.{◌≡◌, ℕ, ◌+◌, ◌-◌, ◌*◌, ◌^◌, ◌<◌, ◌≤◌, true, false, cond, List, length, slice_index, slice_index_or};
ghost use Rattle.readings.specs.InsideLeadingBytes.{Ends, DigitsRead, AllRead, TextRead};
ghost use Rattle.readings.specs.InsideAmountReadings.{WholeRead, MagnitudeTold};
ghost use Rattle.fields.specs.declared.FieldType.TheVariants.{RecordId, Digits, Number, Date, DateTime, Char, Varchar};
ghost use Rattle.tables.specs.InsideCodes.{type_of_code};
ghost use Rattle.readings.specs.InsideReadings.{FieldRead, FieldTold, is_narrow};

// The bytes that were read, and the number that they write.
#[derive(Clone, Copy)]
pub struct Run {
    pub len: usize,
    pub value: u64,
}

// What is read of a field that fits its type: where it ends, and what it says as one number.
#[derive(Clone, Copy)]
pub struct Reading {
    pub len: usize,
    pub number: u64,
}

fn no_digits() -> Run
    ensures { (result.len ≡ 0) × (result.value ≡ 0) }
{
    Run { len: 0, value: 0 }
}

// Whether the first eight bytes of s are digits. There is no early exit, so that they are compared at once.
fn begins_with_eight(s: &[u8]) -> bool
    requires { 8 ≤ length s.now }
    ensures { result ≡ true → (k : ℕ) → k < 8 → (48 ≤ slice_index s.now k) × (slice_index s.now k ≤ 57) }
{
    let mut all = true;
    for i in 0..8 {
        if 9 < s[i].wrapping_sub(b'0') {
            all = false;
        }
    }
    all
}

// The first eight digits of s, where it begins with so many.
fn eight_digits(s: &[u8]) -> Run
    requires { 8 ≤ length s.now }
    ensures { DigitsRead s.now result }
{
    if !begins_with_eight(s) {
        return no_digits();
    }
    let mut value: u64 = 0;
    for i in 0..8 {
        value = value * 10 + u64::from(s[i] - b'0');
    }
    Run { len: 8, value }
}

// The digits at the start of s, at most 15, of which some are read.
fn more_digits(s: &[u8], run: Run) -> Run
    requires { DigitsRead s.now run }
    ensures { AllRead s.now result }
{
    let n = s.len().min(15);
    let mut value = run.value;
    for len in run.len..n {
        let digit = s[len].wrapping_sub(b'0');
        if 9 < digit {
            return Run { len, value };
        }
        value = value * 10 + u64::from(digit);
    }
    Run { len: n, value }
}

// The digits at the start of s, at most 15.
pub fn leading_digits(s: &[u8]) -> Run
    ensures { AllRead s.now result }
{
    more_digits(s, no_digits())
}

// What leading_digits says, where there are likely eight digits or more.
pub fn many_leading_digits(s: &[u8]) -> Run
    ensures { AllRead s.now result }
{
    if s.len() < 8 {
        return leading_digits(s);
    }
    more_digits(s, eight_digits(s))
}

// The bytes at the start of s before a comma, at most 4.
pub fn leading_text(s: &[u8]) -> Run
    ensures { TextRead s.now result }
{
    let n = s.len().min(4);
    let mut value: u64 = 0;
    for len in 0..n {
        let b = s[len];
        if b == b',' {
            return Run { len, value };
        }
        value = value * 256 + u64::from(b);
    }
    Run { len: n, value }
}

// Whether the field at the start of s can end at k.
pub fn ends_at(s: &[u8], k: usize) -> bool
    requires { k ≤ length s.now }
    ensures { (result ≡ true → Ends s.now k) × (result ≡ false → Ends s.now k → ⊥) }
{
    if k == s.len() {
        return true;
    }
    s[k] == 44
}

// The byte of s at k, or a comma where s ends before it.
pub fn next_byte(s: &[u8], k: usize) -> u8
    ensures { result ≡ slice_index_or s.now k 44 }
{
    if s.len() <= k {
        return 44;
    }
    s[k]
}

// The units of an amount: its whole part, and the number that the q digits after its point write. Where it is too wide for an amount, 0.
fn scaled(w: u64, f: u64, q: usize, whole: usize, scale: usize) -> u64
    requires { (w < 10 ^ whole) × (f < 10 ^ q) × (q ≤ scale) }
    ensures { (whole + scale ≤ 15 → result ≡ w * 10 ^ scale + f * 10 ^ (scale - q)) × (result < 10 ^ 15) }
{
    if 15 < whole {
        return 0;
    }
    if 15 - whole < scale {
        return 0;
    }
    w * amounts::ten_to(scale) + f * amounts::ten_to(scale - q)
}

// The whole part of an amount, which ends the field, or the whole part and what stands after the point at p.
fn read_places(s: &[u8], w: u64, p: usize, whole: usize, scale: usize) -> Option<Reading>
    requires { WholeRead s.now w p whole × (whole ≤ 15) × (scale ≤ 15) }
    ensures { MagnitudeTold whole scale s.now result }
{
    let next = next_byte(s, p);
    if next == 44 {
        return Some(Reading {
            len: p,
            number: scaled(w, 0, 0, whole, scale),
        });
    }
    if next != 46 {
        return None;
    }
    let run = leading_digits(&s[p + 1..]);
    let q = run.len;
    if q < 1 {
        return None;
    }
    if scale < q {
        return None;
    }
    if !ends_at(s, p + 1 + q) {
        return None;
    }
    Some(Reading {
        len: p + 1 + q,
        number: scaled(w, run.value, q, whole, scale),
    })
}

// An amount without its sign.
pub fn read_magnitude(s: &[u8], whole: usize, scale: usize) -> Option<Reading>
    requires { (whole ≤ 15) × (scale ≤ 15) }
    ensures { MagnitudeTold whole scale s.now result }
{
    let run = leading_digits(s);
    let p = run.len;
    if p < 1 {
        return None;
    }
    if whole < p {
        return None;
    }
    read_places(s, run.value, p, whole, scale)
}

// The ID that some digits at the start of s are, where they end the field.
fn id_of(s: &[u8], run: Run) -> Option<Reading>
    requires { AllRead s.now run }
    ensures { FieldTold RecordId s.now result }
{
    let len = run.len;
    if !ends_at(s, len) {
        return None;
    }
    if len == 0 {
        return Some(Reading { len: 0, number: 0 });
    }
    Some(Reading {
        len,
        number: run.value + 1,
    })
}

// A Record, Parent or Reference ID.
pub fn read_id(s: &[u8]) -> Option<Reading>
    ensures { FieldTold RecordId s.now result }
{
    id_of(s, leading_digits(s))
}

// The same, where it is likely to have eight digits or more.
fn read_long_id(s: &[u8]) -> Option<Reading>
    ensures { FieldTold RecordId s.now result }
{
    id_of(s, many_leading_digits(s))
}

// An ID of just so many digits.
fn read_digits(s: &[u8], width: usize) -> Option<Reading>
    ensures { FieldTold (Digits width) s.now result }
{
    let id = read_long_id(s)?;
    if id.len == 0 || id.len == width {
        return Some(id);
    }
    None
}

// The date that an ID of eight digits writes. An empty field, whose number is 0, is an empty date.
fn date_of(id: Reading) -> Option<Reading>
    ensures { (s : List ℕ) → FieldRead (Digits 8) s id → FieldTold Date s result }
{
    if id.number == 0 {
        return Some(id);
    }
    let day = calendar::date_day(id.number - 1)?;
    Some(Reading {
        len: 8,
        number: day + 1,
    })
}

// An ID of just so many digits, or a date, which has eight. One call reads the digits of both, so that it is compiled into the loop over a line's fields.
fn read_fixed(s: &[u8], width: usize, is_date: bool) -> Option<Reading>
    ensures { FieldTold (cond is_date Date (Digits width)) s.now result }
{
    let digits = if is_date { 8 } else { width };
    let id = read_digits(s, digits)?;
    if is_date {
        return date_of(id);
    }
    Some(id)
}

fn read_date_time(s: &[u8]) -> Option<Reading>
    ensures { FieldTold DateTime s.now result }
{
    let len = lists::find(s, 44);
    if fields::is_date_time(&s[..len]) {
        return Some(Reading { len, number: 0 });
    }
    None
}

// An amount. One call reads it with a minus and without, so that it is compiled into the loop over a line's fields.
fn read_number(s: &[u8], precision: usize, scale: usize) -> Option<Reading>
    requires { (precision - scale ≤ 15) × (scale ≤ 15) }
    ensures { FieldTold (Number precision scale) s.now result }
{
    let first = next_byte(s, 0);
    if first == 44 {
        return Some(Reading { len: 0, number: 0 });
    }
    if precision <= scale {
        return None;
    }
    let minus: usize = if first == 45 { 1 } else { 0 };
    let size = read_magnitude(&s[minus..], precision - scale, scale)?;
    Some(Reading {
        len: size.len + minus,
        number: amounts::saying(precision, first == 45, size.number),
    })
}

pub fn read_char(s: &[u8], width: usize) -> Option<Reading>
    requires { width ≤ 4 }
    ensures { FieldTold (Char width) s.now result }
{
    let run = leading_text(s);
    let len = run.len;
    if !ends_at(s, len) {
        return None;
    }
    if len == 0 {
        return Some(Reading { len: 0, number: 0 });
    }
    if len == width {
        return Some(Reading {
            len,
            number: run.value,
        });
    }
    None
}

fn read_varchar(s: &[u8], width: usize) -> Option<Reading>
    ensures { FieldTold (Varchar width) s.now result }
{
    let run = leading_text(s);
    let short = run.len;
    if ends_at(s, short) {
        if short <= width {
            return Some(Reading {
                len: short,
                number: run.value,
            });
        }
        return None;
    }
    if width <= 4 {
        return None;
    }
    let len = lists::find(s, 44);
    if len <= width {
        return Some(Reading { len, number: 0 });
    }
    None
}

// The field of the type that a code stands for.
pub fn read_field(code: usize, s: &[u8]) -> Option<Reading>
    requires { is_narrow (type_of_code code) ≡ true }
    ensures { FieldTold (type_of_code code) s.now result }
{
    let first = code / 256 % 256;
    let kind = code / 65536;
    match kind {
        1 | 3 => read_fixed(s, first, kind == 3),
        2 => read_number(s, first, code % 256),
        4 => read_date_time(s),
        5 => read_char(s, first),
        6 => read_varchar(s, first),
        _ => read_id(s),
    }
}
