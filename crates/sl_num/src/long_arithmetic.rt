//! What the operators of `Long` give.

ghost use Rattle.std.specs.Prelude.{◌≡◌, ◌<◌};
ghost use Rattle.sl_num.specs.Long.{long, long_shift_count};

use crate::int_op::IntOp;

/// `a OP b` of two `Long`s (JVMS 6.5, ladd to lushr). A shift's distance is a `Long` here too.
pub fn long(op: IntOp, a: i64, b: i64) -> i64
    ensures { result ≡ long op a b }
{
    match op {
        IntOp::Add => a.wrapping_add(b),
        IntOp::Sub => a.wrapping_sub(b),
        IntOp::Mul => a.wrapping_mul(b),
        IntOp::And => a & b,
        IntOp::Or => a | b,
        IntOp::Xor => a ^ b,
        IntOp::Shl => a << shift_count(b),
        IntOp::Shr => a >> shift_count(b),
        IntOp::Ushr => (a.cast_unsigned() >> shift_count(b)).cast_signed(),
    }
}

// How far a shift by `b` moves the bits.
fn shift_count(b: i64) -> u64
    ensures value { result ≡ long_shift_count b }
    ensures below { result < 64 }
{
    b.rem_euclid(64).cast_unsigned()
}
