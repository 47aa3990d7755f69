//! Returns (JVMS 2.6.4).

ghost use Rattle.std.specs.Prelude.{◌≡◌, ◌<◌, length, drop, true};
ghost use Rattle.vm_state.specs.Local.{IsLocal, has_room, resumed, returned, ended};

use cf_link::Linked;
use vm_state::{Frame, LocalStep, StuckKind, Thread, Value, is_initialiser};

// Whether a result fits the operands of a frame.
#[inline(always)]
fn has_room(g: &Frame, v: Option<Value>) -> bool
    ensures { result ≡ has_room g.now v }
{
    match v {
        None => true,
        Some(v) => g.stack.fits(v.width()),
    }
}

// The caller goes on behind its call, with the result.
#[inline(always)]
fn resume(g: &mut Frame, v: Option<Value>)
    requires pc { g.old.pc < 65535 }
    requires room { has_room g.old v ≡ true }
    ensures { g.new ≡ resumed g.old v }
{
    if let Some(v) = v {
        g.stack.push(v);
    }
    g.pc += 1;
}

/// Ends the innermost frame with this value.
#[tactic(auto, using(crate::proofs::Lists::second))]
fn leave(t: &mut Thread, v: Option<Value>) -> LocalStep
    requires { 0 < length t.old.frames }
    ensures { IsLocal (returned t.old (drop 1 t.old.frames) v) result t.old t.new }
{
    match t.frames.get(1) {
        None => {
            t.frames.take_off(1);
            LocalStep::Stepped
        }
        Some(g) => {
            if g.pc >= 65535 {
                return LocalStep::Stuck(StuckKind::PcOut);
            }
            if !has_room(g, v) {
                return LocalStep::Stuck(StuckKind::Stack);
            }
            t.frames.take_off(1);
            resume(t.frames.top_mut(), v);
            LocalStep::Stepped
        }
    }
}

/// Ends the method of the innermost frame with this value.
pub fn end(k: &Linked, t: &mut Thread, v: Option<Value>) -> LocalStep
    requires { 0 < length t.old.frames }
    ensures { IsLocal (ended k.now t.old t.old.frames v) result t.old t.new }
{
    let Some(f) = t.frames.top() else {
        return LocalStep::Memory;
    };
    if is_initialiser(k, f) {
        LocalStep::AtHeap
    } else {
        leave(t, v)
    }
}
