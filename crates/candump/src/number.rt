// Numbers of decimal or hexadecimal digits.
ghost use Rattle.std.specs.Prelude.{◌≡◌, ◌^◌, ◌<◌, ◌≤◌, length, IfSome};
ghost use Rattle.candump.specs.Logs.{number_in};

// The seconds of a time stamp have at most so many.
const MOST_DIGITS: usize = 10;

// Leading zeros are digits like any other, so it is no number of a sheet, which has none; letters may be small or capital.
pub(crate) fn number(radix: u32, digits: &[u8]) -> Option<u64>
    requires low { 2 ≤ radix }
    requires high { radix ≤ 16 }
    ensures value { result ≡ number_in radix digits.now }
    ensures bound { IfSome result (λ n. (length digits.now ≤ 10) × (n < radix ^ length digits.now)) }
{
    if digits.is_empty() || digits.len() > MOST_DIGITS {
        return None;
    }
    // A loop: that a step fits follows from the digits before it, of which a closure of `try_fold` knows nothing.
    let mut n = 0;
    for b in digits {
        let digit = char::from(*b).to_digit(radix)?;
        n = n * u64::from(radix) + u64::from(digit);
    }
    Some(n)
}
