//! The class that an instruction needs (JVMS 5.5).

ghost use Rattle.std.specs.Prelude.{◌≡◌, slice_get};
ghost use Rattle.std.specs.Option.{option_copied};
ghost use Rattle.vm_state.specs.Methods.{code_of};
ghost use Rattle.vm_state.specs.Shared.{enters, begins, begun, readiness};

use cf_form::Code;
use cf_link::{Linked, LinkedClass};
use vm_state::{Heap, Init, Readiness, StuckKind, Target, code_of};

fn enters(class: u32, method: u32, code: Option<&Code>) -> Readiness
    ensures { result ≡ enters class method (option_copied code.entry) }
{
    match code {
        None => Readiness::Lacks(StuckKind::NoMethod),
        Some(_) => Readiness::Begins(Target { class, method }),
    }
}

fn begins(k: &Linked, class: u32, initialiser: Option<u32>) -> Readiness
    ensures { result ≡ begins k.now class initialiser }
{
    match initialiser {
        None => Readiness::Fresh,
        Some(method) => enters(class, method, code_of(k, class, method)),
    }
}

fn begun(k: &Linked, class: u32, c: Option<&LinkedClass>) -> Readiness
    ensures { result ≡ begun k.now class (option_copied c.entry) }
{
    match c {
        None => Readiness::Lacks(StuckKind::WrongKind),
        Some(c) => begins(k, class, c.initialiser),
    }
}

/// How far a thread finds a class initialised.
pub fn readiness(k: &Linked, h: &Heap, thread: u32, class: u32) -> Readiness
    ensures { result ≡ readiness k.now thread class (slice_get h.now.inits class) }
{
    match h.inits.get(class as usize) {
        None => Readiness::Lacks(StuckKind::WrongKind),
        Some(init) => match *init {
            Init::NotYet => begun(k, class, k.classes.get(class as usize)),
            Init::Running(other) => {
                if other == thread {
                    Readiness::Usable
                } else {
                    Readiness::Busy
                }
            }
            Init::Ready => Readiness::Usable,
            Init::Bad => Readiness::Failed,
        },
    }
}
