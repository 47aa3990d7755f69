//! Constants, and the steps to the next instruction.

ghost use Rattle.std.specs.Prelude.{◌≡◌, ◌<◌, drop, length};
ghost use Rattle.vm_state.specs.Instructions.{Does, next, pushed};

use crate::frame::Frame;
use crate::outcomes::{Effect, StuckKind};
use crate::value::Value;

/// The next instruction.
#[inline(always)]
pub fn skip(f: &mut Frame) -> Effect
    requires { f.old.pc < 65535 }
    ensures { Does (next f.old f.old.stack.values) result f.old f.new }
{
    f.pc += 1;
    Effect::Done
}

/// Pushes a value.
#[inline(always)]
pub fn push(f: &mut Frame, v: Value) -> Effect
    requires { f.old.pc < 65535 }
    ensures { Does (pushed f.old f.old.stack.values v) result f.old f.new }
{
    if f.stack.fits(v.width()) {
        f.stack.push(v);
        f.pc += 1;
        Effect::Done
    } else {
        Effect::Stuck(StuckKind::Stack)
    }
}

/// Puts a value in the place of the one on top.
#[inline(always)]
pub fn replace_top(f: &mut Frame, v: Value) -> Effect
    requires pc { f.old.pc < 65535 }
    requires some { 0 < length f.old.stack.values }
    ensures { Does (pushed f.old (drop 1 f.old.stack.values) v) result f.old f.new }
{
    match f.stack.pop() {
        None => Effect::Stuck(StuckKind::Stack),
        Some(old) => {
            if f.stack.fits(v.width()) {
                f.stack.push(v);
                f.pc += 1;
                Effect::Done
            } else {
                f.stack.push(old);
                Effect::Stuck(StuckKind::Stack)
            }
        }
    }
}

/// The next instruction, with so many operands fewer.
#[inline(always)]
pub fn pop_off(f: &mut Frame, count: usize)
    requires { f.old.pc < 65535 }
    ensures { f.new ≡ (next f.old (drop count f.old.stack.values)).frame }
{
    f.stack.take_off(count);
    f.pc += 1;
}
