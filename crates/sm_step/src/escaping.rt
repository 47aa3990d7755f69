//! Exceptions that leave a part, and those that end a thread.

ghost use Rattle.std.specs.Prelude.{◌≡◌, [], length, IfOk, OnOk, OnErr};
ghost use Rattle.std.specs.Option.{option_copied, option_and_then, unwrap_or};
ghost use Rattle.sm_state.specs.declared.value.Value.TheVariants as value;
ghost use Rattle.sm_rule.specs.Edits.{edited};
ghost use Rattle.sm_rule.specs.Perform.{class_name};
ghost use Rattle.sm_rule.specs.Step.{class_kind, dropped, is_error, replaced_in, is_replaced, text_only, uncaught_in, uncaught};
ghost use Rattle.sm_step.specs.Escaping.{replaced_heap};

use crate::editing::make_edit;
use crate::leaving::{class_kind, dropped};
use crate::parameters::field_at;
use sl_base::{Name, NoMemory};
use sm_act::{class_name, is_instance, number};
use sm_decide::plain;
use sm_rule::Edit;
use sm_state::{Context, Heap, Module, Object, Part, Value, field_number, made};
use std::alloc::Global;
use ty_prog::{Event, Kind, Program};

fn is_error(p: &Program, h: &Heap, x: &Value) -> bool
    ensures { result ≡ is_error p.now h.now x.now }
{
    match x {
        Value::Ref(r) => is_instance(p, h, 12, *r),
        _ => false,
    }
}

fn replaced_in(kind: Kind, error: bool) -> bool
    ensures { result ≡ replaced_in kind error }
{
    match kind {
        Kind::Object => !error,
        _ => false,
    }
}

/// Whether another exception goes on in place of this one.
pub fn is_replaced(p: &Program, h: &Heap, c: &Context<'_>, x: &Value) -> bool
    ensures { result ≡ is_replaced p.now h.now c.now x.now c.now.part }
{
    match c.part {
        Part::Constructor => replaced_in(class_kind(p, c.class), is_error(p, h, x)),
        _ => false,
    }
}

fn text_only(alloc: Global, v: Option<&Value>) -> Result<Option<Name>, NoMemory>
    ensures { IfOk result (λ made. made ≡ option_and_then text_only (option_copied v.entry)) }
{
    match v {
        Some(Value::Text(t)) => Ok(Some(t.copy(alloc)?)),
        _ => Ok(None),
    }
}

// The name of a class; empty where there is no such class.
fn name_or_empty(alloc: Global, p: &Program, class: u32) -> Result<Name, NoMemory>
    ensures { IfOk result (λ name. name ≡ unwrap_or (class_name p.now class) []) }
{
    match class_name(alloc, p, class)? {
        Some(name) => Ok(name),
        None => Ok(plain(alloc, "")?),
    }
}

// The end of a thread by an exception, as an event.
fn uncaught_in(alloc: Global, p: &Program, t: u32, o: Option<&Object>) -> Result<Edit, NoMemory>
    ensures { IfOk result (λ edit. edit ≡ uncaught_in p.now t (option_copied o.entry)) }
{
    match o {
        None => Ok(Edit::Nothing),
        Some(o) => {
            let class = name_or_empty(alloc, p, o.class)?;
            let number = field_number(p.classes.as_slice(), o.class, 2, 0)?;
            let message = text_only(alloc, field_at(o, number))?;
            Ok(Edit::AddEvent(Event::Uncaught {
                thread: t,
                class,
                message,
            }))
        }
    }
}

/// What a thread shows that ends by an exception.
pub fn uncaught(alloc: Global, p: &Program, h: &Heap, t: u32, x: &Value) -> Result<Edit, NoMemory>
    ensures { IfOk result (λ edit. edit ≡ uncaught p.now h.now t x.now) }
{
    match x {
        Value::Ref(r) => uncaught_in(alloc, p, t, h.objects.get(*r as usize)),
        _ => Ok(Edit::Nothing),
    }
}

/// An exception leaves a part. Without memory nothing changes.
pub fn drop_part(p: &Program, h: &mut Heap, c: &Context<'_>) -> Result<(), NoMemory>
    ensures ok { OnOk result (h.new ≡ edited (dropped p.now h.old c.now c.now.part) h.old) }
    ensures err { OnErr result (h.new ≡ h.old) }
{
    let edit = dropped(p, h, c)?;
    make_edit(h, edit)
}

/// An initialisation fails by ExceptionInInitializerError. Without memory nothing changes.
pub fn replace(alloc: Global, p: &Program, h: &mut Heap, class: u32) -> Result<Value, NoMemory>
    ensures heap { OnOk result (h.new ≡ replaced_heap p.now class h.old) }
    ensures value { IfOk result (λ x. x ≡ value.Ref (length h.old.objects)) }
    ensures err { OnErr result (h.new ≡ h.old) }
{
    let at = number(h.objects.len())?;
    let object = made(alloc, p.classes.as_slice(), 14, &Some(Value::Null))?;
    make_edit(h, Edit::AddObject(object))?;
    h.modules.set(class as usize, Module::Bad);
    Ok(Value::Ref(at))
}

/// The same, and the thread ends.
pub fn replace_and_end(
    alloc: Global,
    p: &Program,
    h: &mut Heap,
    t: u32,
    class: u32,
) -> Result<(), NoMemory>
    ensures ok { OnOk result (h.new ≡ edited (uncaught p.now (replaced_heap p.now class h.old) t (value.Ref (length h.old.objects))) (replaced_heap p.now class h.old)) }
    ensures err { OnErr result (h.new ≡ h.old) }
{
    let object = made(alloc, p.classes.as_slice(), 14, &Some(Value::Null))?;
    let event = uncaught_in(alloc, p, t, Some(&object))?;
    let len = h.objects.len();
    make_edit(h, Edit::AddObject(object))?;
    match make_edit(h, event) {
        Ok(()) => {
            h.modules.set(class as usize, Module::Bad);
            Ok(())
        }
        Err(e) => {
            h.objects.cut(len);
            Err(e)
        }
    }
}
