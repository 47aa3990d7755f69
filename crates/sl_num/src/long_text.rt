//! The text of a `Long`.

ghost use Rattle.std.specs.Prelude.{◌≡◌, ◌++◌, OnOk, OnErr};
ghost use Rattle.std.specs.Fmt.{signed_decimal};

use crate::NoMemory;
use itoa::Buffer;

/// Appends the decimal digits of `n`, after a `-` if it is below 0.
pub fn put_i64(n: i64, into: &mut Vec<u8>) -> Result<(), NoMemory>
    ensures ok { OnOk result (into.new.items ≡ into.old.items ++ signed_decimal n) }
    ensures err { OnErr result (into.new.items ≡ into.old.items) }
{
    let mut buffer = Buffer::new();
    into.extend_from_slice(buffer.format(n).as_bytes())?;
    Ok(())
}
