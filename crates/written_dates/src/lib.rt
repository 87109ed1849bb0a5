// Days written as dates, YYYYMMDD.

#![tactic(auto)]

ghost use Rattle.std.specs.Prelude.{◌≡◌, ◌+◌, ◌≤◌, length};
ghost use Rattle.writing.specs.InsideWriting.{written_at};
ghost use Rattle.written_dates.specs.InsideDates.{InMonth, date_number_of, date_digits};

// The month of a day, counted from January 2000. No month has more than 31 days, so that it is not before the month of that number.
fn month_of_day(day: u64) -> usize
    requires { day ≤ 36524 }
    ensures { InMonth result day }
{
    let guess = (day / 31) as usize;
    for k in guess..1199 {
        if day < calendar::first_day(k + 1) {
            return k;
        }
    }
    1199
}

// The date of a day, as the number YYYYMMDD.
pub fn date_number(day: u64) -> u64
    requires { day ≤ 36524 }
    ensures { result ≡ date_number_of day }
{
    let k = month_of_day(day);
    ((2000 + k / 12) * 10000 + (k % 12 + 1) * 100) as u64 + (day - calendar::first_day(k) + 1)
}

// The date of a day: eight digits.
pub fn write_date(out: &mut [u8], at: usize, day: u64)
    requires { (day ≤ 36524) × (at + 8 ≤ length out.old) }
    ensures { out.new ≡ written_at out.old at (date_digits day) }
{
    writing::write_digits(out, at, 8, date_number(day));
}
