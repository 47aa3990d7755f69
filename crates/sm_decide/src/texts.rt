//! Texts.

ghost use Rattle.std.specs.Prelude.{◌≡◌, ◌+◌, ◌++◌, if◌then◌else◌, nat_lt, pos, IfOk, IsTrue};
ghost use Rattle.std.specs.Char.{is_ascii};
ghost use Rattle.std.specs.List.{list_all};
ghost use Rattle.std.specs.Str.{chars};
ghost use Rattle.sm_rule.specs.Values.{is_empty, units};

use sl_base::{Name, NoMemory};
use std::alloc::{AllocError, Global};

/// The text with these characters, which are its bytes. Errors: want of memory.
pub fn plain(alloc: Global, text: &str) -> Result<Name, AllocError>
    requires { IsTrue (list_all is_ascii text.now) }
    ensures { IfOk result (λ name. name ≡ text.now) }
{
    Name::from_text(alloc, text)
}

/// Whether a text has no character.
pub(crate) fn is_empty(text: &Name) -> bool
    ensures { result ≡ is_empty text.now }
{
    text.as_str().chars().next().is_none()
}

// How many UTF-16 units a character has.
fn width(c: char) -> u64
    ensures { result ≡ if nat_lt c 65536 then 1 else 2 }
{
    if (c as u32) < 65536 { 1 } else { 2 }
}

// A sum, where there is room for it.
fn add(count: u64, more: u64) -> Result<u64, NoMemory>
    ensures { IfOk result (λ n. n ≡ count + more) }
{
    match count.checked_add(more) {
        Some(n) => Ok(n),
        None => Err(NoMemory),
    }
}

// How many UTF-16 units a text has.
#[tactic(auto, using(crate::proofs::Listed::units_push))]
fn units_of(text: &str) -> Result<u64, NoMemory>
    ensures { IfOk result (λ n. n ≡ units (chars text.now)) }
{
    let mut count: u64 = 0;
    for character in text.chars() {
        count = add(count, width(character))?;
    }
    Ok(count)
}

/// How many UTF-16 units a text has.
pub(crate) fn units(text: &Name) -> Result<u64, NoMemory>
    ensures { IfOk result (λ n. n ≡ units text.now) }
{
    units_of(text.as_str())
}

/// The same as an Int.
pub(crate) fn length(text: &Name) -> Result<i32, NoMemory>
    ensures { IfOk result (λ n. n ≡ pos (units text.now)) }
{
    let count = units(text)?;
    if count < 1 << 31 {
        Ok(count as i32)
    } else {
        Err(NoMemory)
    }
}

/// Two texts joined.
pub(crate) fn join(alloc: Global, a: &Name, b: &Name) -> Result<Name, NoMemory>
    ensures { IfOk result (λ made. made ≡ a.now ++ b.now) }
{
    let mut text = String::from_str(alloc, a.as_str())?;
    text.push_str(b.as_str())?;
    Ok(Name::from_string(text))
}
