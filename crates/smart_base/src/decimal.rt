//! Numbers in decimal.
ghost use Rattle.std.specs.Prelude.{◌≡◌, ◌∷◌, []};
ghost use Rattle.smart_base.specs.Decimals.{number_from, number_of};

fn next_number(n: u64, digit: u8) -> Option<u64>
    ensures { result ≡ number_from n (digit ∷ []) }
{
    if digit < b'0' || b'9' < digit {
        return None;
    }
    n.checked_mul(10)?.checked_add((digit - b'0') as u64)
}

/// A number below 2^64 in decimal digits, without leading zeros.
pub fn number_of(digits: &[u8]) -> Option<u64>
    ensures { result ≡ number_of digits.now }
{
    if digits.is_empty() || digits.len() > 1 && digits[0] == b'0' {
        return None;
    }
    let mut n = 0;
    for digit in digits {
        n = next_number(n, *digit)?;
    }
    Some(n)
}
