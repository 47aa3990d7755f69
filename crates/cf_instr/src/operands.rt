//! The operands of an instruction at the front of bytes.

ghost use Rattle.std.specs.Prelude.{◌≡◌, ◌≢◌, ◌++◌, false, true, IsTrue, MatchResult, Some, None, Err, MatchOption, pos};
ghost use Rattle.cf_instr.specs.Faults.{widens};
ghost use Rattle.cf_instr.specs.Reading.{Reads, Misreads};

use crate::code_fault::CodeKind;
use crate::numbers::{byte, short, signed_byte, signed_int, signed_short};
use cf_form::Shape;

/// The operands of this shape, and what is behind them.
#[inline(always)]
pub fn plain(shape: Shape, bytes: &[u8]) -> Result<(i32, i32, &[u8]), CodeKind>
    requires { shape ≢ Shape.Wide }
    ensures { MatchResult result (λ x. Reads shape false bytes.now x.0 x.1 x.2.now) (Misreads shape false bytes.now) }
{
    match shape {
        Shape::Plain | Shape::Wide => Ok((0, 0, bytes)),
        Shape::Signed1 => alone(signed_byte(bytes)),
        Shape::Signed2 | Shape::Jump2 => alone(signed_short(bytes)),
        Shape::Pool1 | Shape::Local => alone(byte(bytes)),
        Shape::Pool2 => alone(short(bytes)),
        Shape::Step => step(bytes),
        Shape::Jump4 => alone(signed_int(bytes)),
        Shape::Face => face(bytes),
    }
}

/// The operands of this shape after `wide`, and what is behind them.
#[inline(always)]
pub fn widened(shape: Shape, bytes: &[u8]) -> Result<(i32, i32, &[u8]), CodeKind>
    requires { IsTrue (widens (Some shape)) }
    ensures { MatchResult result (λ x. Reads shape true bytes.now x.0 x.1 x.2.now) (Misreads shape true bytes.now) }
{
    match shape {
        Shape::Step => wide_step(bytes),
        _ => alone(short(bytes)),
    }
}

// One operand, or the bytes end before it does.
#[inline(always)]
fn alone(operand: Option<(i32, &[u8])>) -> Result<(i32, i32, &[u8]), CodeKind>
    ensures { MatchOption operand.entry (result ≡ Err CodeKind.Cut) (λ x. MatchResult result (λ y. (y.0 ≡ x.0) × (y.1 ≡ pos 0) × (y.2 ≡ x.1)) (λ _. ⊥)) }
{
    match operand {
        Some((a, rest)) => Ok((a, 0, rest)),
        None => Err(CodeKind::Cut),
    }
}

// A local and an amount.
#[inline(always)]
fn step(bytes: &[u8]) -> Result<(i32, i32, &[u8]), CodeKind>
    ensures { MatchResult result (λ x. Reads Shape.Step false bytes.now x.0 x.1 x.2.now) (Misreads Shape.Step false bytes.now) }
{
    match byte(bytes) {
        Some((a, rest)) => match signed_byte(rest) {
            Some((b, rest)) => Ok((a, b, rest)),
            None => Err(CodeKind::Cut),
        },
        None => Err(CodeKind::Cut),
    }
}

// A local and an amount of twice the width.
#[inline(always)]
fn wide_step(bytes: &[u8]) -> Result<(i32, i32, &[u8]), CodeKind>
    ensures { MatchResult result (λ x. Reads Shape.Step true bytes.now x.0 x.1 x.2.now) (Misreads Shape.Step true bytes.now) }
{
    match short(bytes) {
        Some((a, rest)) => match signed_short(rest) {
            Some((b, rest)) => Ok((a, b, rest)),
            None => Err(CodeKind::Cut),
        },
        None => Err(CodeKind::Cut),
    }
}

// An index of the constant pool, a count, and a zero byte.
#[inline(always)]
fn face(bytes: &[u8]) -> Result<(i32, i32, &[u8]), CodeKind>
    ensures { MatchResult result (λ x. Reads Shape.Face false bytes.now x.0 x.1 x.2.now) (Misreads Shape.Face false bytes.now) }
{
    match bytes {
        [high, low, count, last, rest @ ..] => {
            if *last != 0 {
                return Err(CodeKind::Shape);
            }
            let index = u16::from_be_bytes([*high, *low]);
            Ok((index as i32, *count as i32, rest))
        }
        _ => Err(CodeKind::Cut),
    }
}
