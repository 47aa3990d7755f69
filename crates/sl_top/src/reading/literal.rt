ghost use Rattle.std.specs.Prelude.{◌≡◌, ℕ, ◌+◌, ◌≤◌, ◌<◌, ◌^◌, ◌∷◌, List, MatchOption, IsTrue, ◌↔◌};
ghost use Rattle.sl_top.specs.Reading.{NoDigit, HasDigits, SpellsLiteral, IsRead, NoneRead};

/// The greatest Int.
const GREATEST: u64 = 2147483647;

/// The digit at the front.
fn digit(bytes: &[u8]) -> Option<(u8, &[u8])>
    ensures { MatchOption result (NoDigit bytes.now) (λ d. (d.0 < 10) × (bytes.now ≡ (48 + d.0) ∷ d.1.now)) }
{
    match bytes.split_first() {
        Some((byte, rest)) if byte.is_ascii_digit() => Some((*byte - b'0', rest)),
        _ => None,
    }
}

/// The number that the digits at the front write, if it is an Int.
fn number(bytes: &[u8]) -> Option<(u32, &[u8])>
    ensures { MatchOption result ((n : ℕ) × (rest : List ℕ) × HasDigits bytes.now n rest × (2 ^ 31 ≤ n))
        (λ r. HasDigits bytes.now r.0 r.1.now × (r.0 < 2 ^ 31) × NoDigit r.1.now) }
{
    let mut value = 0u64;
    let mut rest = bytes;
    'digits: while let Some((next, after)) = digit(rest) {
        value = 10 * value + u64::from(next);
        if value > GREATEST {
            return None;
        }
        rest = after;
    }
    Some((value as u32, rest))
}

/// Whether a zero stands before another digit.
fn leads_with_zero(first: u8, others: &[u8]) -> bool
    ensures { IsTrue result ↔ ((first ≡ 0) × (NoDigit others.now → ⊥)) }
{
    first == 0 && digit(others).is_some()
}

/// The literal at the front: no zero leads, and no digit is left behind it.
pub fn literal(bytes: &[u8]) -> Option<(u32, &[u8])>
    ensures { MatchOption result (NoneRead SpellsLiteral bytes.now)
        (λ r. IsRead SpellsLiteral bytes.now r.0 r.1.now) }
{
    let (first, others) = digit(bytes)?;
    if leads_with_zero(first, others) {
        return None;
    }
    number(bytes)
}
