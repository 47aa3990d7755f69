//! Parts of the modified UTF-8 of a text.

ghost use Rattle.std.specs.Prelude.{◌≡◌, ◌++◌, OnOk, OnErr, IsTrue, ◌↔◌, EachIndex, slice_index};
ghost use Rattle.std.specs.Int.{IsInRange};
ghost use Rattle.std.specs.Str.{chars};
ghost use Rattle.cf_mutf8.specs.ModifiedUtf8.{encoded};
ghost use Rattle.cf_mutf8.specs.Appended.{IsExtended};

use crate::NoMemory;
use crate::characters::push_character;

// Whether the text's UTF-8 is its modified UTF-8, as it is where it has no 0 and no character past U+FFFF.
pub(crate) fn is_unchanged(text: &str) -> bool
    ensures { IsTrue result → encoded (chars text.now) ≡ text.now }
{
    are_shared(text.as_bytes())
}

// Whether no byte is 0 or the first of a character past U+FFFF.
fn are_shared(bytes: &[u8]) -> bool
    ensures { IsTrue result ↔ EachIndex bytes.now (λ k. IsInRange 0x01 0xEF (slice_index bytes.now k)) }
{
    bytes.iter().all(|byte| 0 < *byte && *byte < 0xF0)
}

// Appends one character after the other; where memory runs out, some bytes at most.
pub(crate) fn push_characters(text: &str, into: &mut Vec<u8>) -> Result<(), NoMemory>
    ensures ok { OnOk result (into.new.items ≡ into.old.items ++ encoded (chars text.now)) }
    ensures err { OnErr result (IsExtended into.old.items into.new.items) }
{
    for character in text.chars() {
        match push_character(character, into) {
            Ok(()) => {}
            Err(error) => return Err(error),
        }
    }
    Ok(())
}
