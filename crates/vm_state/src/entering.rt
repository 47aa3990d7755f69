//! Calls: the new frame (JVMS 2.6, 6.5).

ghost use Rattle.std.specs.Prelude.{◌≡◌, ◌∷◌, ◌++◌, ◌<◌, ◌≤◌, length, take, IfOk, OnOk, replicate};
ghost use Rattle.std.specs.Option.{option_copied};
ghost use Rattle.vm_state.specs.declared.value.Value.TheVariants as value;
ghost use Rattle.vm_state.specs.Local.{IsLocal, local_values, as_locals, frame_of, without, called};

use crate::frame::Frame;
use crate::operands::Operands;
use crate::outcomes::{LocalStep, StuckKind};
use crate::seq::Seq;
use crate::target::Target;
use crate::thread::Thread;
use crate::value::Value;
use cf_form::Code;
use std::alloc::{AllocError, Global};

// Appends the local variables of a value: of a Long it and Null.
#[inline]
fn add_locals(made: &mut Seq<Value>, v: Value) -> Result<(), AllocError>
    ensures { OnOk result (made.new ≡ made.old ++ local_values v) }
{
    made.push(v)?;
    match v {
        Value::Long(_) => made.push(Value::Null),
        _ => Ok(()),
    }
}

/// The top operands as locals, the last of them first.
fn arguments(
    alloc: Global,
    stack: &Operands,
    count: usize,
    all: usize,
) -> Result<Seq<Value>, AllocError>
    requires { count ≤ length stack.now.values }
    ensures { IfOk result (λ made. made ≡ as_locals (take count stack.now.values)) }
{
    let mut made = Seq::with_room(alloc, all)?;
    let mut left = count;
    while left > 0 {
        left -= 1;
        let Some(v) = stack.get(left) else {
            return Err(AllocError);
        };
        add_locals(&mut made, v)?;
    }
    Ok(made)
}

// Appends Null up to so many locals.
fn pad(locals: &mut Seq<Value>, count: usize) -> Result<(), AllocError>
    ensures { OnOk result (locals.new ≡ locals.old ++ replicate count value.Null) }
{
    for n in 0..count {
        locals.push(Value::Null)?;
    }
    Ok(())
}

/// A new frame with these first locals.
pub fn begin(
    alloc: Global,
    target: Target,
    code: &Code,
    mut locals: Seq<Value>,
) -> Result<Frame, AllocError>
    ensures { IfOk result (λ f. f ≡ frame_of target code.now locals) }
{
    let missing = (code.max_locals as usize).saturating_sub(locals.len());
    pad(&mut locals, missing)?;
    Ok(Frame {
        class: target.class,
        method: target.method,
        pc: 0,
        locals,
        stack: Operands::with_room(alloc, code.max_stack)?,
    })
}

// Takes so many operands off.
fn drop_operands(f: &mut Frame, count: usize)
    ensures { f.new ≡ without count f.old }
{
    f.stack.take_off(count);
}

/// Calls a method with so many of the operands on top.
pub fn enter(
    alloc: Global,
    t: &mut Thread,
    target: Target,
    count: usize,
    code: Option<&Code>,
) -> LocalStep
    requires { 0 < length t.old.frames }
    ensures { IsLocal (called t.old t.old.frames target count (option_copied code.entry)) result t.old t.new }
{
    let Some(code) = code else {
        return LocalStep::Stuck(StuckKind::NoMethod);
    };
    let Some(f) = t.frames.top() else {
        return LocalStep::Memory;
    };
    if f.stack.count() < count {
        return LocalStep::Stuck(StuckKind::Stack);
    }
    let Ok(locals) = arguments(alloc, &f.stack, count, code.max_locals as usize) else {
        return LocalStep::Memory;
    };
    if locals.len() > code.max_locals as usize {
        return LocalStep::Stuck(StuckKind::LocalOut);
    }
    let Ok(made) = begin(alloc, target, code, locals) else {
        return LocalStep::Memory;
    };
    if t.frames.push(made).is_err() {
        return LocalStep::Memory;
    }
    drop_operands(t.frames.under_top_mut(), count);
    LocalStep::Stepped
}
