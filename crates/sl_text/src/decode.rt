//! The characters of bytes.

ghost use Rattle.std.specs.Prelude.{◌≡◌, ◌≤◌, ◌^◌, length, IfOk, IfErr};
ghost use Rattle.std.specs.Str.{chars, IsUtf8};
ghost use Rattle.sl_text.specs.Utf8.{IsIllFormedAt};

use simdutf8::compat::from_utf8;
use std::alloc::{AllocError, Global};

// The bytes themselves, or where the first ill-formed sequence begins.
pub(crate) fn validated(bytes: &[u8]) -> Result<&str, u32>
    requires { length bytes.now ≤ 2 ^ 20 }
    ensures text { IfOk result (λ text. (text.now ≡ bytes.now) × IsUtf8 bytes.now) }
    ensures fault { IfErr result (IsIllFormedAt bytes.now) }
{
    match from_utf8(bytes) {
        Ok(text) => Ok(text),
        Err(fault) => Err(fault.valid_up_to() as u32),
    }
}

// The characters of a text.
pub(crate) fn collected(alloc: Global, text: &str) -> Result<Vec<char>, AllocError>
    ensures { IfOk result (λ v. v.items ≡ chars text.now) }
{
    text.chars().collect(alloc)
}
