//! Single code units of UTF-16, read from bytes and appended to them.

ghost use Rattle.std.specs.Prelude.{◌≡◌, ◌≢◌, ◌++◌, ◌+◌, ◌<◌, ◌≤◌, ◌^◌, ◌∷◌, [], ℕ, List, length, drop, MatchOption, OnOk, OnErr, slice_index, IsTrue, ◌↔◌};
ghost use Rattle.std.specs.Int.{IsInRange};
ghost use Rattle.cf_mutf8.specs.ModifiedUtf8.{unit_bytes};

use crate::NoMemory;

/// A code unit and how many bytes it takes.
#[derive(Clone, Copy)]
pub(crate) struct Unit {
    pub(crate) code: u16,
    pub(crate) size: usize,
}

/// The code unit whose bytes begin at `at`, if any unit's do.
pub(crate) fn unit_at(bytes: &[u8], at: usize) -> Option<Unit>
    requires { at < 2 ^ 33 }
    ensures { MatchOption result ((u : ℕ) → u < 2 ^ 16 → (rest : List ℕ) → drop at bytes.now ≢ unit_bytes u ++ rest) (λ unit. (drop at bytes.now ≡ unit_bytes unit.code ++ drop (at + unit.size) bytes.now) × (unit.size ≡ length (unit_bytes unit.code))) }
{
    let first = byte_at(bytes, at);
    if 0xE0 <= first && first < 0xF0 {
        match three_bytes(first, byte_at(bytes, at + 1), byte_at(bytes, at + 2)) {
            Some(code) => Some(Unit { code, size: 3 }),
            None => None,
        }
    } else if 0xC0 <= first && first < 0xE0 {
        match two_bytes(first, byte_at(bytes, at + 1)) {
            Some(code) => Some(Unit { code, size: 2 }),
            None => None,
        }
    } else if 0 < first && first < 0x80 {
        Some(Unit {
            code: first as u16,
            size: 1,
        })
    } else {
        None
    }
}

// The byte at `i`; 0, which no unit has, past the end.
fn byte_at(bytes: &[u8], i: usize) -> u8
    ensures { result ≡ slice_index bytes.now i }
{
    if i < bytes.len() { bytes[i] } else { 0 }
}

// The unit of two bytes, unless they are overlong or the second is no continuation.
fn two_bytes(first: u8, second: u8) -> Option<u16>
    requires low { 0xC0 ≤ first }
    requires high { first < 0xE0 }
    ensures { MatchOption result ((u : ℕ) → u < 2 ^ 16 → unit_bytes u ≢ first ∷ second ∷ []) (λ u. unit_bytes u ≡ first ∷ second ∷ []) }
{
    if !is_continuation(second) {
        return None;
    }
    let code = (first as u16 - 0xC0) * 0x40 + (second as u16 - 0x80);
    if code == 0 || 0x80 <= code {
        Some(code)
    } else {
        None
    }
}

// The unit of three bytes, unless they are overlong or a later one is no continuation.
fn three_bytes(first: u8, second: u8, third: u8) -> Option<u16>
    requires low { 0xE0 ≤ first }
    requires high { first < 0xF0 }
    ensures { MatchOption result ((u : ℕ) → u < 2 ^ 16 → unit_bytes u ≢ first ∷ second ∷ third ∷ []) (λ u. unit_bytes u ≡ first ∷ second ∷ third ∷ []) }
{
    if !is_continuation(second) || !is_continuation(third) {
        return None;
    }
    let code = (first as u16 - 0xE0) * 0x1000
        + (second as u16 - 0x80) * 0x40
        + (third as u16 - 0x80);
    if 0x800 <= code { Some(code) } else { None }
}

// Whether a byte may stand behind the first of a unit.
fn is_continuation(byte: u8) -> bool
    ensures { IsTrue result ↔ IsInRange 0x80 0xBF byte }
{
    0x80 <= byte && byte < 0xC0
}

/// Appends the bytes of a code unit, or none.
pub(crate) fn push_unit(unit: u16, into: &mut Vec<u8>) -> Result<(), NoMemory>
    ensures ok { OnOk result (into.new.items ≡ into.old.items ++ unit_bytes unit) }
    ensures err { OnErr result (into.new.items ≡ into.old.items) }
{
    let last = (0x80 + unit % 0x40) as u8;
    if 0 < unit && unit < 0x80 {
        append(&[unit as u8], into)
    } else if unit < 0x800 {
        append(&[(0xC0 + unit / 0x40) as u8, last], into)
    } else {
        let first = (0xE0 + unit / 0x1000) as u8;
        let second = (0x80 + unit / 0x40 % 0x40) as u8;
        append(&[first, second, last], into)
    }
}

// Appends bytes, or none.
fn append(bytes: &[u8], into: &mut Vec<u8>) -> Result<(), NoMemory>
    ensures ok { OnOk result (into.new.items ≡ into.old.items ++ bytes.now) }
    ensures err { OnErr result (into.new.items ≡ into.old.items) }
{
    into.extend_from_slice(bytes)?;
    Ok(())
}
