//! Descriptors of fields (JVMS 4.3.2).

ghost use Rattle.std.specs.Prelude.{◌≡◌, MatchOption, None, Some, true, IfSome, encode_utf8_all};
ghost use Rattle.cf_link.specs.Descriptors.{IsType};
ghost use Rattle.cf_link.specs.Parsing.{letter, name_end, plain_type, type_in_front};
ghost use Rattle.cf_link.specs.declared.value_kind.ValueKind.{ValueKind as Kind};

use crate::value_kind::ValueKind;
use sl_base::Name;

/// The kind of the values of the type that a text describes; None exactly where it describes none.
pub fn field_kind(descriptor: &Name) -> Option<ValueKind>
    ensures kind { IfSome result (λ kind. IsType (encode_utf8_all descriptor.now) kind) }
    ensures only { (kind : Kind) → IsType (encode_utf8_all descriptor.now) kind → result ≡ Some kind }
{
    match type_in_front(descriptor.as_str().as_bytes()) {
        Some((kind, after)) => { if after.is_empty() { Some(kind) } else { None } }
        None => None,
    }
}

/// A type, and what stands behind it.
pub(crate) fn type_in_front(bytes: &[u8]) -> Option<(ValueKind, &[u8])>
    ensures { MatchOption result (type_in_front bytes.now ≡ None) (λ found. type_in_front bytes.now ≡ Some (found.0, found.1.now)) }
{
    let mut rest = bytes;
    let mut is_array = false;
    while !rest.is_empty() && rest[0] == b'[' {
        rest = &rest[1..];
        is_array = true;
    }
    match plain_type(rest) {
        Some((kind, after)) => {
            if is_array {
                Some((ValueKind::Reference, after))
            } else {
                Some((kind, after))
            }
        }
        None => None,
    }
}

// A type that is no array, and what stands behind it.
fn plain_type(bytes: &[u8]) -> Option<(ValueKind, &[u8])>
    ensures { MatchOption result (plain_type bytes.now ≡ None) (λ found. plain_type bytes.now ≡ Some (found.0, found.1.now)) }
{
    if bytes.is_empty() {
        return None;
    }
    if bytes[0] == b'L' {
        return match name_end(&bytes[1..]) {
            Some(after) => Some((ValueKind::Reference, after)),
            None => None,
        };
    }
    match letter(bytes[0]) {
        Some(kind) => Some((kind, &bytes[1..])),
        None => None,
    }
}

// What stands behind a class name and its `;`.
fn name_end(bytes: &[u8]) -> Option<&[u8]>
    ensures { MatchOption result (name_end true bytes.now ≡ None) (λ after. name_end true bytes.now ≡ Some after.now) }
{
    let mut empty = true;
    for (i, byte) in bytes.iter().enumerate() {
        if *byte == b';' {
            if empty {
                return None;
            }
            return Some(&bytes[i + 1..]);
        }
        if *byte == b'/' {
            if empty {
                return None;
            }
            empty = true;
        } else {
            if *byte == b'.' || *byte == b'[' {
                return None;
            }
            empty = false;
        }
    }
    None
}

// The kind of a letter's type.
fn letter(byte: u8) -> Option<ValueKind>
    ensures { result ≡ letter byte }
{
    match byte {
        b'I' | b'Z' => Some(ValueKind::Int),
        b'J' => Some(ValueKind::Long),
        b'B' | b'C' | b'D' | b'F' | b'S' => Some(ValueKind::Reference),
        _ => None,
    }
}
