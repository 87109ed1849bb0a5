// What Check answers. The refusals that it chooses from, in document 01's order, are in specs/. The rejection code of a Table 5-1 test, from A5.24. And the
// answers of a date and of a code in one word, as a host gets them: the refusal's number times 2 ^ 32, and in the lower 32 bits the value asked for.

#![tactic(auto)]

ghost use Rattle.std.specs.Prelude.{◌≡◌};
ghost use Rattle.calendar.specs.Calendar.{day_of};
ghost use Rattle.refusals.specs.Answers.{packed, day_answer, code_answer};
ghost use Rattle.refusals.specs.Codes.{code_of};
ghost use Rattle.refusals.specs.InsideResults.{TestTold};
ghost use Rattle.refusals.specs.Refusals.{outcome};

// The code of each test from 0 to 40; 0 where document 01 lists no such test.
const CODES: [u64; 41] = [
    0, 0, 6002, 6041, 6003, 6004, 6005, 6006, 6007, 6007, 6008, 6009, 6010, 0, 6011, 0, 0, 6015,
    6016, 0, 0, 0, 0, 0, 0, 0, 0, 0, 0, 6028, 6029, 6031, 6032, 6033, 6034, 0, 0, 0, 6040, 6043,
    6044,
];

// The code of a test, or none where document 01 lists no such test.
pub fn code_of(test: u64) -> Option<u64>
    ensures { result ≡ code_of test }
{
    if 40 < test {
        return None;
    }
    let code = CODES[test as usize];
    if code == 0 {
        return None;
    }
    Some(code)
}

// The day of a date, in one word; 3 if it isn't one.
pub fn day_word(date: &[u8]) -> u64
    ensures { result ≡ packed (day_answer (day_of date.now)) }
{
    calendar::day_of(date).unwrap_or(3 * 4294967296)
}

// The rejection code of a test, in one word; 107 if it isn't one of Table 5-1 that document 01 lists.
pub fn code_word(test: u64) -> u64
    ensures { result ≡ packed (code_answer (code_of test)) }
{
    code_of(test).unwrap_or(107 * 4294967296)
}

// The refusal's number and line; 0 and 0 where nothing is refused, in the definitions alone. A number: document 01 lists the tests by theirs.
#[derive(Clone, Copy)]
pub struct Outcome {
    pub number: u64,
    pub line: u64,
}

pub fn refused(number: u64, line: u64) -> Outcome
    ensures { result ≡ outcome number line }
{
    Outcome { number, line }
}

// Test `number`, by the first of n records that fails it, or n: refused at that record, or passed.
pub fn test(number: u64, place: usize, n: usize) -> Result<(), Outcome>
    ensures { TestTold number n place result }
{
    if place < n {
        return Err(refused(number, place as u64 + 1));
    }
    Ok(())
}
