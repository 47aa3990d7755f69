//! Parameters of descriptors of methods (JVMS 4.3.3).

ghost use Rattle.std.specs.Prelude.{◌≡◌, [], IfOk, MatchOption};
ghost use Rattle.cf_link.specs.Signatures.{AreParameters, NoParameters};

use crate::descriptors::type_in_front;
use crate::value_kind::ValueKind;
use sqlite_items::Items;
use std::alloc::AllocError;

/// Puts the kinds of the types before a `)`, and gives what stands behind it; None exactly where there are no such types.
pub fn put_parameters<'a>(
    bytes: &'a [u8],
    kinds: &mut Items<ValueKind>,
) -> Result<Option<&'a [u8]>, AllocError>
    requires { kinds.old ≡ [] }
    ensures { IfOk result (λ found. MatchOption found (NoParameters bytes.now) (λ after. AreParameters bytes.now kinds.new after.now)) }
{
    let mut rest = bytes;
    while !rest.is_empty() {
        if rest[0] == b')' {
            return Ok(Some(&rest[1..]));
        }
        match type_in_front(rest) {
            Some((kind, after)) => {
                kinds.push(kind)?;
                rest = after;
            }
            None => return Ok(None),
        }
    }
    Ok(None)
}
