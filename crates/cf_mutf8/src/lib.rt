//! Modified UTF-8, the form of the texts in class files (JVMS 4.4.7), both ways.
#![tactic(auto)]

ghost use Rattle.std.specs.Prelude.{◌≡◌, ◌++◌, ◌<◌, ◌^◌, ◌↔◌, ℕ, List, length, IfOk, OnOk, OnErr};
ghost use Rattle.std.specs.Str.{chars};
ghost use Rattle.std.specs.String.{string_bytes};
ghost use Rattle.cf_mutf8.specs.ModifiedUtf8.{encoded, Spells, IsBadUnitAt};

mod characters;
mod code_units;
mod decode;
mod encode;
mod laws;
mod sizes;
#[cfg(test)]
mod tests;
mod utf8_fault;

use decode::push_next;
use encode::{is_unchanged, push_characters};
pub use laws::{decoding, encoding, wrong_units};
pub use sizes::length;
pub use sl_base::NoMemory;
use std::alloc::Global;
pub use utf8_fault::Utf8Fault;

/// The text that the bytes spell in modified UTF-8 (JVMS 4.4.7). `Memory` comes only at bytes that spell one.
pub fn get(alloc: Global, bytes: &[u8]) -> Result<String, Utf8Fault>
    requires { length bytes.now < 2 ^ 32 }
    ensures text { IfOk result (λ text. bytes.now ≡ encoded (chars (string_bytes text))) }
    ensures bad_utf { (at : ℕ) → (result ≡ Err (Utf8Fault.BadUtf at)) ↔ IsBadUnitAt bytes.now at }
    ensures memory { result ≡ Err Utf8Fault.Memory → (text : List ℕ) × Spells bytes.now text }
{
    let mut text = String::new(alloc);
    let mut at = 0;
    while at < bytes.len() {
        match push_next(bytes, at, &mut text) {
            Ok(next) => at = next,
            Err(fault) => return Err(fault),
        }
    }
    Ok(text)
}

/// The modified UTF-8 of a text (JVMS 4.4.7).
pub fn put(alloc: Global, text: &str) -> Result<Vec<u8>, NoMemory>
    ensures { IfOk result (λ bytes. bytes.items ≡ encoded (chars text.now)) }
{
    let mut bytes = Vec::with_capacity(alloc, text.len())?;
    put_onto(text, &mut bytes)?;
    Ok(bytes)
}

/// Appends the modified UTF-8 of a text (JVMS 4.4.7), or nothing where memory runs out.
pub fn put_onto(text: &str, into: &mut Vec<u8>) -> Result<(), NoMemory>
    ensures ok { OnOk result (into.new.items ≡ into.old.items ++ encoded (chars text.now)) }
    ensures err { OnErr result (into.new.items ≡ into.old.items) }
{
    if is_unchanged(text) {
        into.extend_from_slice(text.as_bytes())?;
        return Ok(());
    }
    let start = into.len();
    match push_characters(text, into) {
        Ok(()) => Ok(()),
        Err(error) => {
            into.truncate(start);
            Err(error)
        }
    }
}
