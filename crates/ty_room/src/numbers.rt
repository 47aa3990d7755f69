//! The numbers of each form without its parts: bytes of code and entries of a constant pool, at most.

ghost use Rattle.std.specs.Prelude.{◌≡◌, ◌≤◌, ℕ};
ghost use Rattle.ty_room.specs.Capped.{capped};
ghost use Rattle.ty_room.specs.Numbers.{handler_bytes, form, operation, deciding, making, operator_numbers, convert_bytes, local_bytes, kept_bytes, get_numbers, put_numbers};

use crate::ahead::Ahead;
use ty_prog::{PrimOp, Ty};

/// What a form takes without its parts.
#[derive(Clone, Copy)]
pub(crate) struct Numbers {
    /// Bytes of code, for its value.
    pub bytes: u32,
    /// Bytes of code, as a test.
    pub jump: u32,
    /// Entries of a constant pool.
    pub entries: u32,
    /// Calls by `super`.
    pub supers: u32,
    /// Whether its parts are operands, which are kept in locals while a `try` runs.
    pub keeps: bool,
    /// Bytes to keep an operand that is no part.
    pub more: u32,
}

/// Bytes of a handler.
pub(crate) fn handler_bytes(ahead: Ahead) -> u32
    ensures bytes { result ≡ handler_bytes ahead }
    ensures few { result ≤ 100 }
{
    if ahead.matches { 13 } else { 7 }
}

/// Bytes of a `finally`.
pub(crate) const FINALLY_BYTES: u32 = 38;

/// Bytes of a case.
pub(crate) const CASE_BYTES: u32 = 3;

/// Bytes of a pattern of a case class, without reading its parts.
pub(crate) const MAKE_BYTES: u32 = 24;

/// Bytes to keep an object of its class, so that its parts are read from there.
pub(crate) const MADE_BYTES: u32 = 14;

/// A form whose parts aren't operands.
pub(crate) fn form(bytes: u32, entries: u32) -> Numbers
    requires { bytes ≤ 100 }
    ensures { result ≡ form bytes entries }
{
    Numbers {
        bytes,
        jump: bytes + 3,
        entries,
        supers: 0,
        keeps: false,
        more: 0,
    }
}

/// An operation on its parts.
pub(crate) fn operation(bytes: u32, entries: u32) -> Numbers
    requires { bytes ≤ 100 }
    ensures { result ≡ operation bytes entries }
{
    Numbers {
        keeps: true,
        ..form(bytes, entries)
    }
}

/// An operation that jumps by itself.
pub(crate) fn deciding(bytes: u32, jump: u32) -> Numbers
    requires { bytes ≤ 100 }
    ensures { result ≡ deciding bytes jump }
{
    Numbers {
        jump,
        ..operation(bytes, 0)
    }
}

/// An operation with an operand that is no part.
pub(crate) fn making(bytes: u32, entries: u32, supers: u32) -> Numbers
    requires { bytes ≤ 100 }
    ensures { result ≡ making bytes entries supers }
{
    Numbers {
        more: 8,
        supers,
        ..operation(bytes, entries)
    }
}

/// Bytes of a local.
pub(crate) fn local_bytes(ahead: Ahead, local: u32) -> u32
    ensures bytes { result ≡ local_bytes ahead local }
    ensures few { result ≤ 100 }
{
    if !ahead.traits && local == 0 { 1 } else { 4 }
}

/// What it takes to keep operands, by eight bytes each.
pub(crate) fn kept_bytes(all: u32) -> u32
    ensures { (whole : ℕ) → all ≡ capped whole → result ≡ capped (kept_bytes whole) }
{
    if all <= 8 {
        return 0;
    }
    if all == 16 { 10 } else { all }
}

/// A read of a field, which may become a call.
pub(crate) fn get_numbers(ahead: Ahead) -> Numbers
    ensures { result ≡ get_numbers ahead }
{
    if ahead.traits {
        operation(6, 4)
    } else {
        operation(3, 3)
    }
}

/// A write of a field, which may become a call.
pub(crate) fn put_numbers(ahead: Ahead) -> Numbers
    ensures { result ≡ put_numbers ahead }
{
    if ahead.traits {
        operation(6, 4)
    } else {
        operation(4, 3)
    }
}

/// What an operator takes without its operands.
pub(crate) fn operator_numbers(op: PrimOp) -> Numbers
    ensures { result ≡ operator_numbers op }
{
    match op {
        PrimOp::Less | PrimOp::AtMost | PrimOp::Greater | PrimOp::AtLeast => deciding(9, 4),
        PrimOp::Same => deciding(8, 3),
        PrimOp::Not => form(2, 0),
        PrimOp::Concat | PrimOp::Equals => operation(3, 0),
        PrimOp::Length
        | PrimOp::IsEmpty
        | PrimOp::ToString
        | PrimOp::ClassName
        | PrimOp::Evaluating
        | PrimOp::NullValue => form(3, 0),
        _ => operation(1, 0),
    }
}

/// Bytes of a conversion.
pub(crate) fn convert_bytes(to: Ty) -> u32
    ensures bytes { result ≡ convert_bytes to }
    ensures few { result ≤ 100 }
{
    match to {
        Ty::Int => 17,
        Ty::Any => 4,
        Ty::AnyRef => 0,
        Ty::Unit => 5,
        _ => 3,
    }
}
