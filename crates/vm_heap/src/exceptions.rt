//! Exceptions that the machine makes (JVMS 2.10).

ghost use Rattle.std.specs.Prelude.{◌≡◌, codes, length, IfOk, OnOk, OnErr};
ghost use Rattle.vm_state.specs.declared.value.Value.TheVariants as value;
ghost use Rattle.vm_state.specs.Heaps.{with_object, with_text, with_field, thrown_value, with_exception};
ghost use Rattle.vm_state.specs.HeapStep.{IsHeapStep, fails};

use crate::objects::blank;
use cf_link::Linked;
use cf_link::built_in::ARITHMETIC_EXCEPTION;
use sl_base::{Name, NoMemory};
use std::alloc::Global;
use vm_state::{Heap, HeapMove, Object, Thread, Value};

#[tactic(auto, using(crate::proofs::Lists::set_past))]
fn set_message(o: &mut Object, text: u32)
    ensures { o.new ≡ with_field o.old 0 (value.Text text) }
{
    if o.fields.len() > 0 {
        *o.fields.at_mut(0) = Value::Text(text);
    }
}

#[tactic(auto, using(crate::proofs::Lists::zero_chars))]
fn zero_text(alloc: Global) -> Result<Name, NoMemory>
    ensures { IfOk result (λ text. text ≡ codes "/ by zero") }
{
    Ok(Name::from_text(alloc, "/ by zero")?)
}

/// An object more, and its message, of which it has the number.
#[tactic(auto, using(crate::proofs::Lists::take_all))]
fn add_with_message(h: &mut Heap, o: Object, message: Name) -> Result<(), NoMemory>
    ensures made { OnOk result (h.new ≡ with_object (with_text h.old message) (with_field o 0 (value.Text (length h.old.texts)))) }
    ensures memory { OnErr result (h.new ≡ h.old) }
{
    let at = h.texts.len();
    if at >= 4294967295 {
        return Err(NoMemory);
    }
    let mut o = o;
    set_message(&mut o, at as u32);
    h.texts.push(message)?;
    match h.objects.push(o) {
        Ok(()) => Ok(()),
        Err(_) => {
            h.texts.truncate(at);
            Err(NoMemory)
        }
    }
}

fn add(alloc: Global, k: &Linked, h: &mut Heap, class: u32) -> Result<(), NoMemory>
    ensures made { OnOk result (h.new ≡ with_exception k.now h.old class) }
    ensures memory { OnErr result (h.new ≡ h.old) }
{
    let made = blank(alloc, k, class)?;
    if class == ARITHMETIC_EXCEPTION {
        let message = zero_text(alloc)?;
        add_with_message(h, made, message)
    } else {
        h.objects.push(made)?;
        Ok(())
    }
}

/// Makes an exception of a class.
pub(crate) fn make_exception(
    alloc: Global,
    k: &Linked,
    h: &mut Heap,
    class: u32,
) -> Result<Value, NoMemory>
    ensures value { IfOk result (λ v. v ≡ thrown_value h.old class) }
    ensures made { OnOk result (h.new ≡ with_exception k.now h.old class) }
    ensures memory { OnErr result (h.new ≡ h.old) }
{
    let at = h.objects.len();
    if at >= 4294967295 {
        return Err(NoMemory);
    }
    add(alloc, k, h, class)?;
    Ok(Value::Ref {
        at: at as u32,
        class,
    })
}

/// Makes an exception and throws it.
pub(crate) fn fail(alloc: Global, k: &Linked, h: &mut Heap, t: &mut Thread, class: u32) -> HeapMove
    ensures { IsHeapStep (fails k.now h.old t.old class) result h.old h.new t.old t.new }
{
    match make_exception(alloc, k, h, class) {
        Err(_) => HeapMove::Memory,
        Ok(e) => {
            t.thrown = Some(e);
            HeapMove::Moved
        }
    }
}
