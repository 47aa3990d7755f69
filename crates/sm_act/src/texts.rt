//! The texts of values that are no objects.

ghost use Rattle.std.specs.Prelude.{◌≡◌, IfOk};
ghost use Rattle.std.specs.Fmt.{signed_decimal};
ghost use Rattle.sm_rule.specs.Values.{plain_text};

use itoa::Buffer;
use sl_base::{Name, NoMemory};
use sm_decide::plain;
use sm_state::Value;
use std::alloc::Global;

// The decimal text of an Int.
#[tactic(auto, using(crate::proofs::Listed::ascii_chars))]
fn int_text(alloc: Global, n: i32) -> Result<Name, NoMemory>
    ensures { IfOk result (λ text. text ≡ signed_decimal n) }
{
    let mut buffer = Buffer::new();
    Ok(Name::from_text(alloc, buffer.format(n))?)
}

// The decimal text of a Long.
#[tactic(auto, using(crate::proofs::Listed::ascii_chars))]
fn long_text(alloc: Global, n: i64) -> Result<Name, NoMemory>
    ensures { IfOk result (λ text. text ≡ signed_decimal n) }
{
    let mut buffer = Buffer::new();
    Ok(Name::from_text(alloc, buffer.format(n))?)
}

/// The text of a value that is no object.
pub(crate) fn plain_text(alloc: Global, v: &Value) -> Result<Name, NoMemory>
    ensures { IfOk result (λ text. text ≡ plain_text v.now) }
{
    match v {
        Value::Unit => Ok(plain(alloc, "()")?),
        Value::Bool(true) => Ok(plain(alloc, "true")?),
        Value::Bool(false) => Ok(plain(alloc, "false")?),
        Value::Int(n) => int_text(alloc, *n),
        Value::Long(n) => long_text(alloc, *n),
        Value::Text(text) => Ok(text.copy(alloc)?),
        Value::Null => Ok(plain(alloc, "null")?),
        _ => Ok(plain(alloc, "Object")?),
    }
}
