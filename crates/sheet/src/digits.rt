// Decimal numbers, digit by digit.
ghost use Rattle.std.specs.Prelude.{◌≡◌, ◌+◌, ◌*◌, ◌^◌, ◌<◌, SomeIff};
ghost use Rattle.sheet.specs.Decimal.{digit_of, number_of, NumberLaws};

use crate::faults::DigitsFault;

// No number has more digits.
const MOST_DIGITS: usize = 10;

fn digit(b: u8, line: usize) -> Result<u32, DigitsFault>
    ensures { result ≡ digit_of line b }
{
    char::from(b).to_digit(10).ok_or(DigitsFault { line })
}

// The number n with the digit d behind it; none if it does not fit.
fn joined(n: u32, d: u32) -> Option<u32>
    ensures { SomeIff result (n * 10 + d < 2 ^ 32) (n * 10 + d) }
{
    n.checked_mul(10)?.checked_add(d)
}

// The number that the digits say; the line is what a fault names. A zero in front is no number's, unless it is alone.
#[tactic(auto, using(crate::proofs::Numbers::number_laws))]
pub fn number(digits: &[u8], line: usize) -> Result<u32, DigitsFault>
    ensures value { result ≡ number_of line digits.now }
    ensures laws { NumberLaws }
{
    let fault = DigitsFault { line };
    // Longer texts are refused at once.
    if digits.len() > MOST_DIGITS {
        return Err(fault);
    }
    if let [] | [b'0', _, ..] = digits {
        return Err(fault);
    }
    let mut n = 0;
    for b in digits {
        let d = digit(*b, line)?;
        n = joined(n, d).ok_or(fault)?;
    }
    Ok(n)
}
