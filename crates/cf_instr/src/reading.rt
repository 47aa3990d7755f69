//! One instruction at the front of bytes.

ghost use Rattle.std.specs.Prelude.{◌≡◌, ◌<◌, length, ◌∷◌, ◌++◌, Bool, true, false, MatchResult, Ok, Err};
ghost use Rattle.cf_form.specs.Instructions.{bytes_of, Fits, wide_opcode};
ghost use Rattle.cf_instr.specs.Faults.{Stops};

use crate::code_fault::CodeKind;
use crate::operands::{plain, widened};
use cf_form::{Instr, Shape, shape_of};

/// The instruction that begins the bytes, and what is behind it. A jump has its offset.
#[inline(always)]
pub fn front_of(bytes: &[u8]) -> Result<(Instr, &[u8]), CodeKind>
    requires { 0 < length bytes.now }
    ensures { MatchResult result (λ x. Fits x.0 × (bytes.now ≡ bytes_of x.0 ++ x.1.now)) (λ kind. Stops kind bytes.now) }
{
    instr_of(bytes[0], &bytes[1..])
}

// The instruction of this opcode with these bytes behind it, and what is behind the instruction.
#[inline(always)]
fn instr_of(op: u8, bytes: &[u8]) -> Result<(Instr, &[u8]), CodeKind>
    ensures { MatchResult result (λ x. Fits x.0 × (op ∷ bytes.now ≡ bytes_of x.0 ++ x.1.now)) (λ kind. Stops kind (op ∷ bytes.now)) }
{
    match shape_of(op) {
        None => Err(CodeKind::Opcode),
        Some(Shape::Wide) => wide_instr_of(bytes),
        Some(shape) => with_operands(op, false, plain(shape, bytes)),
    }
}

// The instruction that `wide` begins, and what is behind it.
#[inline(always)]
fn wide_instr_of(bytes: &[u8]) -> Result<(Instr, &[u8]), CodeKind>
    ensures { MatchResult result (λ x. Fits x.0 × (wide_opcode ∷ bytes.now ≡ bytes_of x.0 ++ x.1.now)) (λ kind. Stops kind (wide_opcode ∷ bytes.now)) }
{
    match bytes {
        [] => Err(CodeKind::Cut),
        [op, rest @ ..] => widened_of(*op, rest),
    }
}

// The instruction of this opcode behind `wide`, and what is behind it.
#[inline(always)]
fn widened_of(op: u8, bytes: &[u8]) -> Result<(Instr, &[u8]), CodeKind>
    ensures { MatchResult result (λ x. Fits x.0 × (wide_opcode ∷ op ∷ bytes.now ≡ bytes_of x.0 ++ x.1.now)) (λ kind. Stops kind (wide_opcode ∷ op ∷ bytes.now)) }
{
    match shape_of(op) {
        Some(Shape::Local) => with_operands(op, true, widened(Shape::Local, bytes)),
        Some(Shape::Step) => with_operands(op, true, widened(Shape::Step, bytes)),
        _ => Err(CodeKind::Opcode),
    }
}

// The operands as those of this opcode.
#[inline(always)]
fn with_operands(
    op: u8,
    wide: bool,
    operands: Result<(i32, i32, &[u8]), CodeKind>,
) -> Result<(Instr, &[u8]), CodeKind>
    ensures { MatchResult operands.entry (λ x. result ≡ Ok (record { op = op; wide = wide; a = x.0; b = x.1 }, x.2)) (λ kind. result ≡ Err kind) }
{
    match operands {
        Ok((a, b, rest)) => Ok((Instr { op, wide, a, b }, rest)),
        Err(kind) => Err(kind),
    }
}
