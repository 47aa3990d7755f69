//! Parts of many local steps of a thread.

ghost use Rattle.std.specs.Prelude.{◌≡◌, ◌<◌, length, None, Some};
ghost use Rattle.vm_state.specs.Local.{IsLocal, local_step};
ghost use Rattle.vm_local.specs.Batches.{AllLocal, locals_after, IsCut, LeavesTop, counted, settled_top, top_code};

use crate::running::{Ran, run_frame};
use crate::settling::settle;
use cf_form::Code;
use cf_link::Linked;
use std::alloc::Global;
use vm_state::{Effect, LocalStep, Thread};

/// How many local steps were made, and what the next one is, where that is known.
#[derive(Clone, Copy, Debug)]
pub struct Batch {
    pub count: u32,
    pub step: LocalStep,
}

/// The steps that stay in the innermost frame.
pub(crate) fn run_top(k: &Linked, code: &Code, t: &mut Thread, most: u32) -> Ran
    requires frames { 0 < length t.old.frames }
    requires code { top_code k.now t.old.frames ≡ Some code.now }
    requires thrown { t.old.thrown ≡ None }
    ensures few { IsCut result.left result.count most }
    ensures all { AllLocal k.now result.count t.old }
    ensures thread { t.new ≡ locals_after k.now result.count t.old }
    ensures frames { 0 < length t.new.frames }
    ensures leaves { LeavesTop k.now t.new result.left }
{
    run_frame(k, code, t.frames.top_mut(), most)
}

/// The step of a thread whose innermost frame is left so.
pub(crate) fn leave(alloc: Global, k: &Linked, t: &mut Thread, effect: Effect) -> LocalStep
    requires frames { 0 < length t.old.frames }
    requires leaves { local_step k.now t.old ≡ settled_top k.now t.old t.old.frames effect }
    ensures { IsLocal (local_step k.now t.old) result t.old t.new }
{
    settle(alloc, k, t, effect)
}

/// The batch of so many steps, and of one more where it was made.
pub(crate) fn counted(count: u32, step: LocalStep) -> Batch
    requires { count < 4294967295 }
    ensures count { result.count ≡ counted count step }
    ensures step { result.step ≡ step }
{
    match step {
        LocalStep::Stepped => Batch {
            count: count + 1,
            step,
        },
        _ => Batch { count, step },
    }
}
