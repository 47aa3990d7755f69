//! Descriptors of methods (JVMS 4.3.3).

ghost use Rattle.std.specs.Prelude.{◌≡◌, List, Option, Some, IfOk, IfSome, encode_utf8_all};
ghost use Rattle.cf_link.specs.Descriptors.{IsResult, IsMethodType};
ghost use Rattle.cf_link.specs.Parsing.{is_void};
ghost use Rattle.cf_link.specs.declared.value_kind.ValueKind.{ValueKind as Kind};

use crate::descriptors::type_in_front;
use crate::parameters::put_parameters;
use crate::value_kind::ValueKind;
use sl_base::Name;
use sqlite_items::Items;
use std::alloc::{AllocError, Global};

/// The kinds of the parameters and of the result of the method that a text describes; None exactly where it describes none.
pub fn method_kinds(
    alloc: Global,
    descriptor: &Name,
) -> Result<Option<(Items<ValueKind>, Option<ValueKind>)>, AllocError>
    ensures kinds { IfOk result (λ found. IfSome found (λ m. IsMethodType (encode_utf8_all descriptor.now) m.0 m.1)) }
    ensures only { IfOk result (λ found. (kinds : List Kind) (returned : Option Kind) → IsMethodType (encode_utf8_all descriptor.now) kinds returned → found ≡ Some (kinds, returned)) }
{
    let bytes = descriptor.as_str().as_bytes();
    if bytes.is_empty() || bytes[0] != b'(' {
        return Ok(None);
    }
    let mut parameters = Items::new(alloc);
    match put_parameters(&bytes[1..], &mut parameters)? {
        Some(after) => match result_kind(after) {
            Some(returned) => Ok(Some((parameters, returned))),
            None => Ok(None),
        },
        None => Ok(None),
    }
}

// What a result of a method holds, and nothing for V; None exactly where the bytes describe none.
fn result_kind(bytes: &[u8]) -> Option<Option<ValueKind>>
    ensures kind { IfSome result (λ returned. IsResult bytes.now returned) }
    ensures only { (returned : Option Kind) → IsResult bytes.now returned → result ≡ Some returned }
{
    match type_in_front(bytes) {
        Some((kind, after)) => {
            if after.is_empty() {
                Some(Some(kind))
            } else {
                None
            }
        }
        None => { if is_void(bytes) { Some(None) } else { None } }
    }
}

// Whether bytes are `V` alone.
fn is_void(bytes: &[u8]) -> bool
    ensures { result ≡ is_void bytes.now }
{
    bytes.len() == 1 && bytes[0] == b'V'
}
