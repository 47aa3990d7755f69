//! Where a frame goes on.

ghost use Rattle.std.specs.Prelude.{◌≡◌, ◌<◌, drop};
ghost use Rattle.vm_state.specs.Instructions.{Does, as_index, goes, branches};

use crate::frame::Frame;
use crate::outcomes::{Effect, StuckKind};

/// An operand as the number of a local, a pool entry or an instruction; None where it is negative.
#[inline(always)]
pub fn as_index(a: i32) -> Option<u32>
    ensures { result ≡ as_index a }
{
    if a >= 0 { Some(a as u32) } else { None }
}

/// Takes so many operands off, and goes to this instruction.
#[inline(always)]
pub fn go(f: &mut Frame, count: usize, a: i32) -> Effect
    ensures { Does (goes f.old (drop count f.old.stack.values) (as_index a)) result f.old f.new }
{
    match as_index(a) {
        None => Effect::Stuck(StuckKind::PcOut),
        Some(n) => {
            f.stack.take_off(count);
            f.pc = n;
            Effect::Done
        }
    }
}

/// Takes so many operands off, and goes to this instruction or to the next instruction.
#[inline(always)]
pub fn branch(f: &mut Frame, count: usize, a: i32, taken: bool) -> Effect
    requires { f.old.pc < 65535 }
    ensures { Does (branches f.old (drop count f.old.stack.values) a taken) result f.old f.new }
{
    if taken {
        go(f, count, a)
    } else {
        f.stack.take_off(count);
        f.pc += 1;
        Effect::Done
    }
}
