//! Source texts: their characters, decoded from UTF-8, and the lines and columns of their offsets.
#![tactic(auto)]

ghost use Rattle.std.specs.Prelude.{◌≡◌, ◌≤◌, ◌^◌, ◌↔◌, ℕ, length, IfOk};
ghost use Rattle.sl_text.specs.Utf8.{Spells, IsWellFormed, IsIllFormedAt};

mod decode;
mod laws;
mod span;
mod spot;
#[cfg(test)]
mod tests;
mod text;
mod text_fault;

use decode::{collected, validated};
pub use laws::{encoding, spots};
pub use span::Span;
pub use spot::{Spot, spot_at};
use std::alloc::Global;
pub use text::Text;
pub use text_fault::TextFault;

/// The text that the bytes spell in UTF-8 (The Unicode Standard, 3.9, D92). `NotUtf8`: they spell none, and the first
/// ill-formed sequence begins there. `Memory` comes only at bytes that are UTF-8.
pub fn chars_of(alloc: Global, bytes: &[u8]) -> Result<Text, TextFault>
    requires { length bytes.now ≤ 2 ^ 20 }
    ensures text { IfOk result (λ text. Spells bytes.now text) }
    ensures not_utf8 { (at : ℕ) → (result ≡ Err (TextFault.NotUtf8 at)) ↔ IsIllFormedAt bytes.now at }
    ensures memory { result ≡ Err TextFault.Memory → IsWellFormed bytes.now }
{
    match validated(bytes) {
        Ok(text) => match collected(alloc, text) {
            Ok(chars) => Ok(Text::from_chars(chars)),
            Err(_) => Err(TextFault::Memory),
        },
        Err(at) => Err(TextFault::NotUtf8 { at }),
    }
}
