//! Instructions that touch their own thread's frames alone (JVMS 6.5).
#![tactic(auto)]

ghost use Rattle.std.specs.Prelude.{◌≡◌, ◌≤◌};
ghost use Rattle.vm_state.specs.Local.{IsLocal, local_step};
ghost use Rattle.vm_local.specs.Batches.{AllLocal, locals_after, Tells};

mod acting;
mod arithmetic;
mod batch;
mod calls;
mod classes;
mod ends;
mod jumps;
mod laws;
mod locals;
mod moves;
mod returning;
mod running;
mod settling;
mod unwinding;

pub use acting::{instruct, instruct_in};
pub use batch::Batch;
use batch::{counted, leave, run_top};
use cf_link::Linked;
pub use laws::batches;
use returning::end;
pub use running::{Ran, run_frame};
use std::alloc::Global;
use unwinding::unwind;
use vm_state::{Effect, LocalStep, Thread, code_of, enter};

/// Makes the next step of a thread, where it touches the thread's own frames alone. Only Stepped changes the thread.
pub fn local(alloc: Global, k: &Linked, t: &mut Thread) -> LocalStep
    ensures { IsLocal (local_step k.now t.old) result t.old t.new }
{
    if t.frames.len() == 0 {
        return LocalStep::Ended;
    }
    if let Some(e) = t.thrown {
        return unwind(k, t, e);
    }
    match instruct(k, t.frames.top_mut()) {
        Effect::Done => LocalStep::Stepped,
        Effect::AtHeap => LocalStep::AtHeap,
        Effect::Stuck(kind) => LocalStep::Stuck(kind),
        Effect::Call { target, count } => enter(
            alloc,
            t,
            target,
            count,
            code_of(k, target.class, target.method),
        ),
        Effect::Return(v) => end(k, t, v),
        Effect::Throw(e) => {
            t.thrown = Some(e);
            LocalStep::Stepped
        }
    }
}

// One step.
fn one(alloc: Global, k: &Linked, t: &mut Thread) -> Batch
    ensures few { result.count ≤ 1 }
    ensures all { AllLocal k.now result.count t.old }
    ensures thread { t.new ≡ locals_after k.now result.count t.old }
    ensures next { Tells k.now t.new result.step }
{
    match local(alloc, k, t) {
        LocalStep::Stepped => Batch {
            count: 1,
            step: LocalStep::Stepped,
        },
        LocalStep::AtHeap => Batch {
            count: 0,
            step: LocalStep::AtHeap,
        },
        LocalStep::Ended => Batch {
            count: 0,
            step: LocalStep::Ended,
        },
        LocalStep::Stuck(kind) => Batch {
            count: 0,
            step: LocalStep::Stuck(kind),
        },
        LocalStep::Memory => Batch {
            count: 0,
            step: LocalStep::Memory,
        },
    }
}

/// Makes up to so many local steps: those that stay in the innermost frame, and the one that leaves it.
pub fn run_some(alloc: Global, k: &Linked, t: &mut Thread, most: u32) -> Batch
    ensures few { result.count ≤ most }
    ensures all { AllLocal k.now result.count t.old }
    ensures thread { t.new ≡ locals_after k.now result.count t.old }
    ensures next { Tells k.now t.new result.step }
{
    if most == 0 {
        return Batch {
            count: 0,
            step: LocalStep::Stepped,
        };
    }
    if t.thrown.is_some() {
        return one(alloc, k, t);
    }
    let Some(f) = t.frames.top() else {
        return one(alloc, k, t);
    };
    let Some(code) = code_of(k, f.class, f.method) else {
        return one(alloc, k, t);
    };
    let ran = run_top(k, code, t, most);
    match ran.left {
        None => Batch {
            count: ran.count,
            step: LocalStep::Stepped,
        },
        Some(effect) => {
            let step = leave(alloc, k, t, effect);
            counted(ran.count, step)
        }
    }
}
