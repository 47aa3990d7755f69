//! What the operators of `Int` give.

ghost use Rattle.std.specs.Prelude.{◌≡◌, ◌<◌};
ghost use Rattle.sl_num.specs.Int.{int, shift_count};

use crate::int_op::IntOp;

/// `a OP b` of two `Int`s (JVMS 6.5, iadd to iushr).
pub fn int(op: IntOp, a: i32, b: i32) -> i32
    ensures { result ≡ int op a b }
{
    match op {
        IntOp::Add => a.wrapping_add(b),
        IntOp::Sub => a.wrapping_sub(b),
        IntOp::Mul => a.wrapping_mul(b),
        IntOp::And => a & b,
        IntOp::Or => a | b,
        IntOp::Xor => a ^ b,
        IntOp::Shl => a << shift_count(b),
        IntOp::Shr => a >> shift_count(b),
        IntOp::Ushr => (a.cast_unsigned() >> shift_count(b)).cast_signed(),
    }
}

// How far a shift by `b` moves the bits.
fn shift_count(b: i32) -> u32
    ensures value { result ≡ shift_count b }
    ensures below { result < 32 }
{
    b.rem_euclid(32).cast_unsigned()
}
