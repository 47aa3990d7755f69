//! Reads a number's text.

ghost use Rattle.std.specs.Prelude.{◌≡◌, ◌≤◌};
ghost use Rattle.sl_num.specs.Literal.{literal, is_long, is_hex, digits, radix, greatest, numeral};

use crate::digits::{byte_at, is_numeral, number_up_to};
use crate::number::{NumFault, Numeral};

/// The number that `text` writes (SLS 1.3.1), in time linear in its length.
/// `Form`: the text isn't `0`, or a digit from 1 to 9 followed by digits, or `0x` or `0X` and hexadecimal digits,
/// with `_` between digits, and then perhaps `L` or `l`.
/// `TooLarge`: it is, and writes more than 2^31 in decimal or 2^32 - 1 in hexadecimal; with `L`, than 2^63 or 2^64 - 1.
pub fn literal(text: &str) -> Result<Numeral, NumFault>
    ensures { result ≡ literal text.now }
{
    let text = text.as_bytes();
    let hex = is_hex(text);
    let long = is_long(text);
    let digits = digits(text, hex, long);
    if !is_numeral(digits, hex) {
        return Err(NumFault::Form);
    }
    match number_up_to(digits, radix(hex), greatest(hex, long)) {
        None => Err(NumFault::TooLarge),
        Some(value) => Ok(numeral(hex, long, value)),
    }
}

// Whether the text ends in `L` or `l`.
fn is_long(text: &[u8]) -> bool
    ensures { result ≡ is_long text.now }
{
    let last = byte_at(text, text.len().saturating_sub(1));
    last == b'L' || last == b'l'
}

// Whether it begins with `0x` or `0X`.
fn is_hex(text: &[u8]) -> bool
    ensures { result ≡ is_hex text.now }
{
    let second = byte_at(text, 1);
    byte_at(text, 0) == b'0' && (second == b'x' || second == b'X')
}

// The text between `0x`, if `hex`, and the suffix, if `long`.
fn digits(text: &[u8], hex: bool, long: bool) -> &[u8]
    requires hex { hex ≡ is_hex text.now }
    requires long { long ≡ is_long text.now }
    ensures { result.now ≡ digits text.now }
{
    let end = if long {
        text.len().saturating_sub(1)
    } else {
        text.len()
    };
    let body = &text[..end];
    match (hex, body) {
        (true, [_, _, rest @ ..]) => rest,
        (true, _) => &[],
        (false, _) => body,
    }
}

// The radix of the digits.
fn radix(hex: bool) -> u64
    ensures { result ≡ radix hex }
{
    if hex { 16 } else { 10 }
}

// The greatest number that the text may write.
fn greatest(hex: bool, long: bool) -> u64
    ensures { result ≡ greatest hex long }
{
    match (hex, long) {
        (false, false) => 0x8000_0000,
        (false, true) => 0x8000_0000_0000_0000,
        (true, false) => 0xffff_ffff,
        (true, true) => 0xffff_ffff_ffff_ffff,
    }
}

// The number, with its type.
fn numeral(hex: bool, long: bool, value: u64) -> Numeral
    requires { value ≤ greatest hex long }
    ensures { result ≡ numeral hex long value }
{
    if long {
        Numeral::Long { value, hex }
    } else {
        Numeral::Int {
            value: value as u32,
            hex,
        }
    }
}
