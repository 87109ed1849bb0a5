// Tests 11, 12 and 33: what FH and FT say of the whole file, by the numbers that were read of them.

#![tactic(auto)]

ghost use Rattle.std.specs.Prelude.{◌≡◌, false, cond, ◌+◌, ◌-◌, ◌≤◌, ◌/◌, eqb, length, pos};
ghost use Rattle.lists.specs.Below.{some_below};
ghost use Rattle.amounts.specs.Amounts.{or_zero};
ghost use Rattle.amounts.specs.InsideSaid.{said_by};
ghost use Rattle.totals.specs.Totals.{sameℤ};
ghost use Rattle.headers.specs.Headers.{is_value};
ghost use Rattle.headers.specs.InsideSteps.{is_sender};

// Test 11: whether the retailer that the header says is the given one. A number stands as itself and one; 0 says none.
pub fn is_ours(said: u64, retailer: u64) -> bool
    ensures { result ≡ eqb said (retailer + 1) }
{
    if said == 0 {
        return false;
    }
    said - 1 == retailer
}

// Whether one of the distributors' groups of four bytes is four digits whose number is the sender.
fn is_among(distributors: &[u8], sender: u64) -> bool
    ensures { result ≡ some_below (is_sender distributors.now sender) (length distributors.now / 4) }
{
    distributors
        .chunks_exact(4)
        .any(|group| digits::fixed_digits(group, 4) == Some(sender))
}

// Test 12: whether the sender that the header says is one of the distributors' groups of four digits.
pub fn is_listed(said: u64, distributors: &[u8]) -> bool
    ensures { result ≡ cond (eqb said 0) false (some_below (is_sender distributors.now (said - 1)) (length distributors.now / 4)) }
{
    if said == 0 {
        return false;
    }
    is_among(distributors, said - 1)
}

// Test 33: whether the record count that the trailer says, as a reader has an amount, is n.
pub fn counts_records(said: u64, n: usize) -> bool
    requires { n ≤ 4096 }
    ensures { result ≡ sameℤ (or_zero (said_by said)) (pos n) }
{
    amounts::said(said).or_zero() == n as i64
}
