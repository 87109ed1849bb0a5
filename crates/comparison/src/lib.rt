// What the comparison tests and benchmarks call besides the host's functions: the readings of single fields, and the writing of dates and of a dispute's line. A reading answers 0, or 3 where the
// bytes miss their type (the C interface has no Option); then what stands behind its references is left as it was.

#![tactic(auto)]

ghost use Rattle.std.specs.Prelude.{◌≡◌, ◌≤◌, length};
ghost use Rattle.calendar.specs.Calendar.{date_time_of};
ghost use Rattle.comparison.specs.InsideDates.{date_number, date_after};
ghost use Rattle.comparison.specs.InsideDisputes.{dispute_said, dispute_length, dispute_after};
ghost use Rattle.comparison.specs.InsideReadings.{flag, digits_for, digits_number, value_after, date_time_number, day_after, second_after, shares_day_of};

use calendar::Period;
use dispute_lines::Dispute;

fn digits_for(s: &[u8], n: usize) -> Option<u64>
    ensures { result ≡ digits_for n s.now }
{
    if n == 0 {
        return digits::digits(s);
    }
    digits::fixed_digits(s, n)
}

// The number that n digits write, or 1 to 15 digits where n is 0.
#[unsafe(no_mangle)]
pub extern "C" fn comparison_digits(s: &[u8], n: u64, value: &mut u64) -> u64
    ensures number { result ≡ digits_number (digits_for n s.now) }
    ensures stored { value.new ≡ value_after value.old (digits_for n s.now) }
{
    match digits_for(s, n as usize) {
        Some(v) => {
            *value = v;
            0
        }
        None => 3,
    }
}

// The day and the second of a date time.
#[unsafe(no_mangle)]
pub extern "C" fn comparison_date_time(s: &[u8], day: &mut u64, second: &mut u64) -> u64
    ensures number { result ≡ date_time_number (date_time_of s.now) }
    ensures day { day.new ≡ day_after day.old (date_time_of s.now) }
    ensures second { second.new ≡ second_after second.old (date_time_of s.now) }
{
    match calendar::date_time_of(s) {
        Some(moment) => {
            *day = moment.day;
            *second = moment.second;
            0
        }
        None => 3,
    }
}

// 1 for two periods that share a day, and 0.
#[unsafe(no_mangle)]
pub extern "C" fn comparison_shares_day(start1: u64, end1: u64, start2: u64, end2: u64) -> u64
    ensures { result ≡ flag (shares_day_of start1 end1 start2 end2) }
{
    let one = Period {
        start: start1,
        end: end1,
    };
    let other = Period {
        start: start2,
        end: end2,
    };
    u64::from(one.shares_day(other))
}

// The date of a day, written at the start of some bytes; 106 past the last day and 109 where there is no room, which leave them.
#[unsafe(no_mangle)]
pub extern "C" fn comparison_date(day: u64, out: &mut [u8]) -> u64
    ensures number { result ≡ date_number day out.old }
    ensures written { out.new ≡ date_after day out.old }
{
    if 36524 < day {
        return 106;
    }
    if out.len() < 8 {
        return 109;
    }
    written_dates::write_date(out, 0, day);
    0
}

// The dispute that seven numbers say; it is of a one-time charge where the sixth is not 0.
fn dispute_of(numbers: &[u64]) -> Dispute
    requires { 7 ≤ length numbers.now }
    ensures { result ≡ dispute_said numbers.now }
{
    Dispute {
        transaction: numbers[0],
        retailer: numbers[1],
        distributor: numbers[2],
        file: numbers[3],
        site: numbers[4],
        once: numbers[5] != 0,
        id: numbers[6],
        code: 7004,
    }
}

// The line of such a dispute, written at the start of some bytes: its length, or 0 where there is no room or what is given isn't enough, which leaves them.
#[unsafe(no_mangle)]
pub extern "C" fn comparison_dispute(numbers: &[u64], created: &[u8], out: &mut [u8]) -> u64
    ensures length { result ≡ dispute_length numbers.now created.now out.old }
    ensures written { out.new ≡ dispute_after numbers.now created.now out.old }
{
    if numbers.len() < 7 {
        return 0;
    }
    if created.len() != 14 {
        return 0;
    }
    let d = dispute_of(numbers);
    if out.len() < dispute_lines::line_length(d) {
        return 0;
    }
    dispute_lines::write_dispute(out, d, created) as u64
}
