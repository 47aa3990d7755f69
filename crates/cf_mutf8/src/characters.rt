//! Single characters, read from bytes and appended to them.

ghost use Rattle.std.specs.Prelude.{◌≡◌, ◌≢◌, ◌++◌, ◌+◌, ◌<◌, ◌≤◌, ◌^◌, ◌∷◌, [], ℕ, length, drop, MatchOption, OnOk, OnErr};
ghost use Rattle.std.specs.Char.{IsScalar, OutOfScalarRange};
ghost use Rattle.cf_mutf8.specs.ModifiedUtf8.{unit_bytes, units_of, character_bytes, NoCharacterBegins};
ghost use Rattle.cf_mutf8.specs.Reading.{StandsAt};
ghost use Rattle.cf_mutf8.specs.Appended.{IsExtended};

use crate::NoMemory;
use crate::code_units::{push_unit, unit_at};

/// A character and how many bytes it takes.
#[derive(Clone, Copy)]
pub(crate) struct Character {
    pub(crate) value: char,
    pub(crate) size: usize,
}

/// The character whose bytes begin at `at`, if any character's do.
pub(crate) fn character_at(bytes: &[u8], at: usize) -> Option<Character>
    requires { at < 2 ^ 32 }
    ensures { MatchOption result (NoCharacterBegins (drop at bytes.now)) (λ c. StandsAt bytes.now at c.value c.size) }
{
    match unit_at(bytes, at) {
        None => None,
        Some(unit) => match char::from_u32(unit.code as u32) {
            Some(value) => Some(Character {
                value,
                size: unit.size,
            }),
            None => pair_at(bytes, at, unit.code),
        },
    }
}

// The character of the surrogate `high`, which stands at `at`, and of the unit behind it.
fn pair_at(bytes: &[u8], at: usize, high: u16) -> Option<Character>
    requires limit { at < 2 ^ 32 }
    requires surrogate { OutOfScalarRange high }
    requires first { drop at bytes.now ≡ unit_bytes high ++ drop (at + 3) bytes.now }
    ensures { MatchOption result (NoCharacterBegins (drop at bytes.now)) (λ c. StandsAt bytes.now at c.value c.size) }
{
    match unit_at(bytes, at + 3) {
        None => None,
        Some(low) => match paired(high, low.code) {
            Some(value) => Some(Character { value, size: 6 }),
            None => None,
        },
    }
}

// The character of a pair of surrogates, unless these are in no such order.
fn paired(high: u16, low: u16) -> Option<char>
    requires { OutOfScalarRange high }
    ensures { MatchOption result ((c : ℕ) → IsScalar c → units_of c ≢ high ∷ low ∷ []) (λ c. IsScalar c × (units_of c ≡ high ∷ low ∷ [])) }
{
    if high < 0xDC00 && 0xDC00 <= low && low < 0xE000 {
        char::from_u32(0x10000 + (high as u32 - 0xD800) * 0x400 + (low as u32 - 0xDC00))
    } else {
        None
    }
}

/// Appends the bytes of a character; where memory runs out, some of them at most.
pub(crate) fn push_character(character: char, into: &mut Vec<u8>) -> Result<(), NoMemory>
    ensures ok { OnOk result (into.new.items ≡ into.old.items ++ character_bytes character) }
    ensures err { OnErr result (IsExtended into.old.items into.new.items) }
{
    let code = character as u32;
    if code < 0x10000 {
        push_unit(code as u16, into)
    } else {
        let offset = code - 0x10000;
        push_unit((0xD800 + offset / 0x400) as u16, into)?;
        push_unit((0xDC00 + offset % 0x400) as u16, into)
    }
}
