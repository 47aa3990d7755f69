//! Threads that are started (`java/lang/Thread`).

ghost use Rattle.std.specs.Prelude.{◌≡◌, [], ◌∷◌, ◌<◌, drop, length, slice_get, IfOk, OnOk, OnErr};
ghost use Rattle.std.specs.Option.{option_copied};
ghost use Rattle.vm_native.specs.Acts.{Acts};
ghost use Rattle.vm_native.specs.Beginning.{run_told};
ghost use Rattle.vm_state.specs.Local.{frame_of};
ghost use Rattle.vm_state.specs.Natives.{with_thread, run_with, run_at, run_of, is_unset, starts_object, thread_start};

use crate::writing::set_field;
use cf_form::Code;
use cf_link::built_in::{ILLEGAL_THREAD_STATE_EXCEPTION, RUNNABLE, THREAD};
use cf_link::{Linked, conforms};
use sl_base::NoMemory;
use std::alloc::Global;
use vm_state::{
    Frame, Heap, HeapEffect, Seq, Stack, StuckKind, Target, Thread, Value, begin, chosen_at,
    class_of, code_of, pop_off,
};

/// The frames of a thread that begins, or why it can't.
type Run = Result<Result<Stack<Frame>, StuckKind>, NoMemory>;

/// The only frame of a thread.
fn alone(alloc: Global, target: Target, code: &Code, v: Value) -> Result<Stack<Frame>, NoMemory>
    ensures { IfOk result (λ frames. frames ≡ frame_of target code.now (v ∷ []) ∷ []) }
{
    let mut locals = Seq::with_room(alloc, code.max_locals as usize)?;
    locals.push(v)?;
    let frame = begin(alloc, target, code, locals)?;
    let mut frames = Stack::new(alloc);
    match frames.push(frame) {
        Ok(()) => Ok(frames),
        Err(_) => Err(NoMemory),
    }
}

fn run_with(alloc: Global, v: Value, target: Target, code: Option<&Code>) -> Run
    ensures { IfOk result (λ run. run_told run ≡ run_with v target (option_copied code.entry)) }
{
    match code {
        None => Ok(Err(StuckKind::NoMethod)),
        Some(code) => {
            if code.max_locals > 0 {
                Ok(Ok(alone(alloc, target, code, v)?))
            } else {
                Ok(Err(StuckKind::LocalOut))
            }
        }
    }
}

fn run_at(alloc: Global, k: &Linked, v: Value, found: Option<(u32, u32)>) -> Run
    ensures { IfOk result (λ run. run_told run ≡ run_at k.now v found) }
{
    match found {
        None => Ok(Err(StuckKind::NoMethod)),
        Some(found) => run_with(
            alloc,
            v,
            Target {
                class: found.0,
                method: found.1,
            },
            code_of(k, found.0, found.1),
        ),
    }
}

/// What a thread with this target begins with.
fn run_of(alloc: Global, k: &Linked, v: Value) -> Run
    ensures { IfOk result (λ run. run_told run ≡ run_of k.now v) }
{
    match v {
        Value::Null => Ok(Ok(Stack::new(alloc))),
        _ => run_at(alloc, k, v, chosen_at(k, class_of(v), RUNNABLE, 0)),
    }
}

/// A thread more, with the next number.
fn add_thread(h: &mut Heap, frames: Stack<Frame>) -> Result<(), NoMemory>
    ensures made { OnOk result (h.new ≡ with_thread h.old frames) }
    ensures memory { OnErr result (h.new ≡ h.old) }
{
    let number = h.born.len();
    if number >= 4294967295 {
        return Err(NoMemory);
    }
    let thread = Thread {
        number: number as u32 + 1,
        frames,
        thrown: None,
    };
    h.born.push(Some(thread))?;
    Ok(())
}

fn is_unset(v: Value) -> bool
    ensures { result ≡ is_unset v }
{
    match v {
        Value::Int(n) => n == 0,
        _ => false,
    }
}

/// Begins the thread of the object on top, whose second field says from then on that it was started.
fn start_object(alloc: Global, k: &Linked, h: &mut Heap, f: &mut Frame, at: u32) -> HeapEffect
    requires { f.old.pc < 65535 }
    ensures { Acts (starts_object k.now h.old f.old at (drop 1 f.old.stack.values) (slice_get h.old.objects at)) result h.old h.new f.old f.new }
{
    let Some(o) = h.objects.get(at as usize) else {
        return HeapEffect::Stuck(StuckKind::WrongKind);
    };
    let Some(started) = o.fields.get(1) else {
        return HeapEffect::Stuck(StuckKind::WrongKind);
    };
    if !is_unset(*started) {
        return HeapEffect::Fail(ILLEGAL_THREAD_STATE_EXCEPTION);
    }
    let Some(target) = o.fields.get(0) else {
        return HeapEffect::Stuck(StuckKind::WrongKind);
    };
    match run_of(alloc, k, *target) {
        Err(_) => HeapEffect::Memory,
        Ok(Err(kind)) => HeapEffect::Stuck(kind),
        Ok(Ok(frames)) => {
            if add_thread(h, frames).is_err() {
                return HeapEffect::Memory;
            }
            set_field(h.objects.at_mut(at as usize), 1, Value::Int(1));
            pop_off(f, 1);
            HeapEffect::Done
        }
    }
}

/// `Thread.start()V`: without memory nothing changes.
pub fn thread_start(alloc: Global, k: &Linked, h: &mut Heap, f: &mut Frame) -> HeapEffect
    requires { f.old.pc < 65535 }
    ensures { Acts (thread_start k.now h.old f.old f.old.stack.values) result h.old h.new f.old f.new }
{
    match f.stack.top() {
        None => HeapEffect::Stuck(StuckKind::Stack),
        Some(Value::Ref { at, class: of }) => {
            if conforms(k.classes.as_slice(), of, THREAD) {
                start_object(alloc, k, h, f, at)
            } else {
                HeapEffect::Stuck(StuckKind::WrongKind)
            }
        }
        Some(_) => HeapEffect::Stuck(StuckKind::WrongKind),
    }
}
