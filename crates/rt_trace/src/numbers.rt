//! Numbers in front of a byte.

ghost use Rattle.std.specs.Prelude.{◌≡◌, ◌≤◌, [], MatchOption, None, Some, length, if◌then◌else◌};
ghost use Rattle.std.specs.Str.{all_ascii_digits};
ghost use Rattle.rt_trace.specs.Reading.{cut, number_of, number_before, value_after};

/// The number before the first of this byte, and what stands behind it.
pub(crate) fn number_before(end: u8, bytes: &[u8]) -> Option<(u32, &[u8])>
    ensures { MatchOption result (number_before end bytes.now ≡ None) (λ found. number_before end bytes.now ≡ Some (found.0, found.1.now)) }
{
    match cut(end, bytes) {
        Some((digits, after)) => match number_of(digits) {
            Some(number) => Some((number, after)),
            None => None,
        },
        None => None,
    }
}

// What stands before the first of this byte, and behind it.
fn cut(end: u8, bytes: &[u8]) -> Option<(&[u8], &[u8])>
    ensures { MatchOption result (cut end [] bytes.now ≡ None) (λ parts. cut end [] bytes.now ≡ Some (parts.0.now, parts.1.now)) }
{
    for (i, byte) in bytes.iter().enumerate() {
        if *byte == end {
            return Some((&bytes[..i], &bytes[i + 1..]));
        }
    }
    None
}

// The number from 1 to 2^32 - 1 that the digits write.
fn number_of(digits: &[u8]) -> Option<u32>
    ensures { result ≡ number_of digits.now }
{
    if digits.is_empty() || digits.len() > 10 || digits[0] == b'0' {
        return None;
    }
    let value = value_of(digits)?;
    if value < 1 << 32 {
        Some(value as u32)
    } else {
        None
    }
}

// The number that at most ten digits write.
fn value_of(digits: &[u8]) -> Option<u64>
    requires { length digits.now ≤ 10 }
    ensures { result ≡ (if all_ascii_digits digits.now then Some (value_after 0 digits.now) else None) }
{
    let mut value = 0;
    for digit in digits {
        if !digit.is_ascii_digit() {
            return None;
        }
        value = 10 * value + u64::from(*digit - b'0');
    }
    Some(value)
}
