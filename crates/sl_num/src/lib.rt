//! Arithmetic of Scala's `Int` and `Long`, of 32 and 64 bits in two's complement (SLS 12.2.1, JVMS 2.11.3), and the
//! text of numbers (SLS 1.3.1).
#![tactic(auto)]

mod arithmetic;
mod digits;
mod division;
mod int_op;
mod laws;
mod literals;
mod long_arithmetic;
mod long_division;
mod long_text;
mod number;
#[cfg(test)]
mod tests;
mod text;

pub use arithmetic::int;
pub use division::{int_div, int_rem};
pub use int_op::IntOp;
pub use laws::{dividing, spelling, wrapping, wrapping_long};
pub use literals::literal;
pub use long_arithmetic::long;
pub use long_division::{long_div, long_rem};
pub use long_text::put_i64;
pub use number::{NumFault, Numeral};
pub use sl_base::NoMemory;
pub use text::put_i32;
