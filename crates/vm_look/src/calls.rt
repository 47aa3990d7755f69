//! Which method a call runs (JVMS 6.5: invokevirtual, invokespecial, invokeinterface).

ghost use Rattle.std.specs.Prelude.{◌≡◌, ◌+◌, ◌∷◌, ◌&&◌, drop, length, slice_get};
ghost use Rattle.std.specs.Option.{option_copied};
ghost use Rattle.cf_link.specs.Selection.{chosen_at};
ghost use Rattle.vm_state.specs.Methods.{are_arguments, is_of, ref_at};
ghost use Rattle.vm_state.specs.Local.{aims, aimed, selected, selection, received, invoked_on, invoked_as, invoked};

use cf_form::Code;
use cf_link::{Linked, LinkedMethod, LinkedRef, Native, ValueKind, is_static, method_at};
use vm_state::{
    Effect, Frame, Invocation, StuckKind, Target, Value, are_arguments, class_of, ref_at, selection,
};

/// Calls a method with code; one that is built in is a heap step.
fn aim(f: &Frame, target: Target, count: usize, m: Option<&LinkedMethod>) -> Effect
    ensures { result ≡ (aimed f.now target count (option_copied m.entry)).effect }
{
    match m {
        None => Effect::Stuck(StuckKind::NoMethod),
        Some(m) => match &m.code {
            Some(_) => Effect::Call { target, count },
            None => match m.native {
                Some(_) => Effect::AtHeap,
                None => Effect::Stuck(StuckKind::NoMethod),
            },
        },
    }
}

/// Calls the selected method.
fn select(k: &Linked, f: &Frame, count: usize, found: Option<(u32, u32)>) -> Effect
    ensures { result ≡ (selected k.now f.now count found).effect }
{
    match found {
        None => Effect::Stuck(StuckKind::NoMethod),
        Some(found) => aim(
            f,
            Target {
                class: found.0,
                method: found.1,
            },
            count,
            method_at(k.classes.as_slice(), found.0, found.1),
        ),
    }
}

/// Calls on this value; on null an exception is made.
fn receive(
    k: &Linked,
    f: &Frame,
    how: Invocation,
    of: u32,
    number: u32,
    count: usize,
    v: Value,
) -> Effect
    ensures { result ≡ (received k.now f.now how of number count v).effect }
{
    if v.is_null() {
        return Effect::AtHeap;
    }
    let found = selection(k, how, class_of(v), of, number);
    select(k, f, count, found)
}

/// Calls a method on the object below its arguments.
fn invoke_on(
    k: &Linked,
    f: &Frame,
    how: Invocation,
    of: u32,
    number: u32,
    m: &LinkedMethod,
) -> Effect
    ensures { result ≡ (invoked_on k.now f.now how of number m.now (slice_get f.now.stack.values (length m.now.parameters))).effect }
{
    let kinds = m.parameters.as_slice();
    match f.stack.get(kinds.len()) {
        None => Effect::Stuck(StuckKind::Stack),
        Some(v) => {
            if !is_static(m.access)
                && (v.is_kind(ValueKind::Reference) && are_arguments(kinds, &f.stack))
            {
                receive(k, f, how, of, number, kinds.len() + 1, v)
            } else {
                Effect::Stuck(StuckKind::WrongKind)
            }
        }
    }
}

/// Calls what a reference resolves to.
fn invoke_ref(k: &Linked, f: &Frame, how: Invocation, r: Option<LinkedRef>) -> Effect
    ensures { result ≡ (invoked k.now f.now how r).effect }
{
    match r {
        Some(LinkedRef::Method(of, number)) => match method_at(k.classes.as_slice(), of, number) {
            None => Effect::Stuck(StuckKind::NoMethod),
            Some(m) => invoke_on(k, f, how, of, number, m),
        },
        _ => Effect::Stuck(StuckKind::WrongKind),
    }
}

/// Calls a method on an object.
pub fn invoke(k: &Linked, f: &Frame, how: Invocation, a: i32) -> Effect
    ensures { result ≡ (invoked k.now f.now how (ref_at k.now f.now.class a)).effect }
{
    invoke_ref(k, f, how, ref_at(k, f.class, a))
}
