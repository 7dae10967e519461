//! Bytes as pairs of digits.
ghost use Rattle.std.specs.Prelude.{◌≡◌, ◌<◌, IfOk, IfSome};
ghost use Rattle.world_rules.specs.Scripts.{hex_value, byte_by, hex_bytes};

use smart_base::sequence::Bytes;
use std::alloc::{AllocError, Global};

/// The number of a digit from 0 to 9 or from a to f.
fn hex_value(digit: u8) -> Option<u8>
    ensures value { result ≡ hex_value digit }
    ensures small { IfSome result (λ n. n < 16) }
{
    match digit {
        b'0'..=b'9' => Some(digit - b'0'),
        b'a'..=b'f' => Some(digit - b'a' + 10),
        _ => None,
    }
}

fn byte_by(high: u8, low: u8) -> Option<u8>
    ensures { result ≡ byte_by (hex_value high) (hex_value low) }
{
    let high = hex_value(high)?;
    let low = hex_value(low)?;
    Some(16 * high + low)
}

/// The bytes that pairs of digits are.
pub fn hex_bytes(alloc: Global, mut digits: &[u8]) -> Result<Option<Bytes>, AllocError>
    ensures { IfOk result (λ bytes. bytes ≡ hex_bytes digits.entry.now) }
{
    let mut bytes = Bytes::new(alloc);
    while let Some((high, rest)) = digits.split_first() {
        let Some((low, rest)) = rest.split_first() else {
            return Ok(None);
        };
        let Some(byte) = byte_by(*high, *low) else {
            return Ok(None);
        };
        bytes.push(byte)?;
        digits = rest;
    }
    Ok(Some(bytes))
}
