//! Parts of a text of modified UTF-8.

ghost use Rattle.std.specs.Prelude.{◌<◌, ◌≤◌, ◌^◌, ℕ, List, length, slice_index, MatchResult};
ghost use Rattle.std.specs.Int.{IsInRange};
ghost use Rattle.std.specs.Str.{chars};
ghost use Rattle.std.specs.String.{string_bytes};
ghost use Rattle.cf_mutf8.specs.Reading.{IsReadTo, IsCause};

use crate::characters::character_at;
use crate::utf8_fault::Utf8Fault;
use std::str::from_utf8_unchecked;

// Appends what stands at `at`, a run of plain bytes or one character, and gives the offset behind it.
pub(crate) fn push_next(bytes: &[u8], at: usize, text: &mut String) -> Result<usize, Utf8Fault>
    requires limit { length bytes.now < 2 ^ 32 }
    requires within { at < length bytes.now }
    requires reads { IsReadTo bytes.now (chars (string_bytes text.old)) at }
    ensures { MatchResult result (λ next. IsReadTo bytes.now (chars (string_bytes text.new)) next × (at < next)) (IsCause bytes.now) }
{
    let end = plain_end(bytes, at);
    if at < end {
        push_plain(bytes, at, end, text)
    } else {
        push_character(bytes, at, text)
    }
}

// The end of the run of plain bytes, 0x01 to 0x7F, that begins at `at`.
fn plain_end(bytes: &[u8], at: usize) -> usize
    requires { at ≤ length bytes.now }
    ensures from { at ≤ result }
    ensures to { result ≤ length bytes.now }
    ensures plain { (k : ℕ) → at ≤ k → k < result → IsInRange 0x01 0x7F (slice_index bytes.now k) }
{
    let mut end = at;
    while end < bytes.len() && 0 < bytes[end] && bytes[end] < 0x80 {
        end += 1;
    }
    end
}

// Appends a run of plain bytes, which are their own characters.
fn push_plain(bytes: &[u8], at: usize, end: usize, text: &mut String) -> Result<usize, Utf8Fault>
    requires limit { length bytes.now < 2 ^ 32 }
    requires before { at < end }
    requires within { end ≤ length bytes.now }
    requires plain { (k : ℕ) → at ≤ k → k < end → IsInRange 0x01 0x7F (slice_index bytes.now k) }
    requires reads { IsReadTo bytes.now (chars (string_bytes text.old)) at }
    ensures { MatchResult result (λ next. IsReadTo bytes.now (chars (string_bytes text.new)) next × (at < next)) (IsCause bytes.now) }
{
    let run = unsafe { from_utf8_unchecked(&bytes[at..end]) };
    match text.push_str(run) {
        Ok(()) => Ok(end),
        Err(_) => Err(fault_from(bytes, end)),
    }
}

// Appends the character at `at`.
fn push_character(bytes: &[u8], at: usize, text: &mut String) -> Result<usize, Utf8Fault>
    requires limit { length bytes.now < 2 ^ 32 }
    requires within { at < length bytes.now }
    requires reads { IsReadTo bytes.now (chars (string_bytes text.old)) at }
    ensures { MatchResult result (λ next. IsReadTo bytes.now (chars (string_bytes text.new)) next × (at < next)) (IsCause bytes.now) }
{
    match character_at(bytes, at) {
        None => Err(Utf8Fault::BadUtf { at: at as u32 }),
        Some(character) => match text.push(character.value) {
            Ok(()) => Ok(at + character.size),
            Err(_) => Err(fault_from(bytes, at)),
        },
    }
}

// Why no text comes of the bytes, where memory ran out at `at`.
fn fault_from(bytes: &[u8], mut at: usize) -> Utf8Fault
    requires limit { length bytes.now < 2 ^ 32 }
    requires reads { (text : List ℕ) × IsReadTo bytes.now text at }
    ensures { IsCause bytes.now result }
{
    while at < bytes.len() {
        match character_at(bytes, at) {
            None => return Utf8Fault::BadUtf { at: at as u32 },
            Some(character) => at += character.size,
        }
    }
    Utf8Fault::Memory
}
