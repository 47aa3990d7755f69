//! Texts of numbers.

ghost use Rattle.std.specs.Prelude.{◌≡◌, IfOk};
ghost use Rattle.std.specs.Fmt.{signed_decimal};

use sl_base::{Name, NoMemory};
use sl_num::put_i64;
use std::alloc::Global;

/// The decimal digits of a number, after a `-` if it is below 0.
pub fn decimal_text(alloc: Global, number: i64) -> Result<Name, NoMemory>
    ensures { IfOk result (λ text. text ≡ signed_decimal number) }
{
    let mut bytes = Vec::new(alloc);
    put_i64(number, &mut bytes)?;
    match String::from_utf8(bytes) {
        Ok(text) => Ok(Name::from_string(text)),
        Err(_) => unreachable!(),
    }
}
