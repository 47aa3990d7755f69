//! Digits with underscores between them: their form and the number that they write.

ghost use Rattle.std.specs.Prelude.{◌≡◌, ◌≤◌, ◌<◌, ◌+◌, ◌*◌, ◌||◌, ◌==◌, MatchOption, slice_index};
ghost use Rattle.std.specs.List.{list_all};
ghost use Rattle.std.specs.Char.{digit_value, is_digit};
ghost use Rattle.sl_num.specs.Literal.{is_numeral, are_digits, number};

// The byte at `at`, or 0 past the end.
pub(crate) fn byte_at(text: &[u8], at: usize) -> u8
    ensures { result ≡ slice_index text.now at }
{
    text.get(at).copied().unwrap_or(0)
}

// Whether these are digits of the radix, in the form of a number.
pub(crate) fn is_numeral(digits: &[u8], hex: bool) -> bool
    ensures { result ≡ is_numeral hex digits.now }
{
    let base = if hex { 16 } else { 10 };
    are_digits(digits, base) && (hex || byte_at(digits, 0) != b'0' || digits.len() == 1)
}

// Whether these are digits of the radix, with underscores between them.
fn are_digits(digits: &[u8], base: u64) -> bool
    ensures { result ≡ are_digits base digits.now }
{
    let last = digits.len().saturating_sub(1);
    are_digits_or_underscores(digits, base)
        && is_digit(byte_at(digits, 0), base)
        && is_digit(byte_at(digits, last), base)
}

// Whether each byte is a digit of the radix or an underscore.
fn are_digits_or_underscores(digits: &[u8], base: u64) -> bool
    ensures { result ≡ list_all (λ c. c == 95 || is_digit c base) digits.now }
{
    digits.iter().all(|c| *c == b'_' || is_digit(*c, base))
}

// Whether the byte is a digit of the radix.
fn is_digit(c: u8, base: u64) -> bool
    ensures { result ≡ is_digit c base }
{
    digit_value(c) < base
}

// What `c` is worth as a digit, or 36 where it is none.
fn digit_value(c: u8) -> u64
    ensures { result ≡ digit_value c }
{
    match c {
        b'0'..=b'9' => u64::from(c - b'0'),
        b'A'..=b'Z' => u64::from(c - b'A') + 10,
        b'a'..=b'z' => u64::from(c - b'a') + 10,
        _ => 36,
    }
}

// The number that the digits write, or `None` where it is above `most`. Nothing is added once it is.
pub(crate) fn number_up_to(digits: &[u8], base: u64, most: u64) -> Option<u64>
    requires { 0 < base }
    ensures { MatchOption result (most < number base digits.now) (λ n. (n ≡ number base digits.now) × (n ≤ most)) }
{
    let mut number = 0;
    for c in digits {
        if *c != b'_' {
            match with_digit(number, base, digit_value(*c), most) {
                None => return None,
                Some(next) => number = next,
            }
        }
    }
    Some(number)
}

// The number with one more digit.
fn with_digit(number: u64, base: u64, digit: u64, most: u64) -> Option<u64>
    ensures { MatchOption result (most < number * base + digit) (λ n. (n ≡ number * base + digit) × (n ≤ most)) }
{
    let next = number.checked_mul(base)?.checked_add(digit)?;
    if next > most { None } else { Some(next) }
}
