//! Fields of objects.

ghost use Rattle.std.specs.Prelude.{◌≡◌, IfOk, option_map};
ghost use Rattle.std.specs.Option.{option_copied};
ghost use Rattle.sm_rule.specs.Perform.{gives, throws, on_null, bad_cast, of_object, value_or_wrong, read, written, exchanged_if, exchanged_at, exchanged};
ghost use Rattle.sm_state.specs.Layout.{field_number};
ghost use Rattle.sm_rule.specs.declared.answer.Edit.TheVariants as edit;

use sl_base::NoMemory;
use sm_decide::same;
use sm_rule::{Answer, Edit};
use sm_state::{Heap, Object, Value, field_number};
use std::alloc::Global;
use ty_prog::Program;

/// The act gives this value, and changes nothing.
pub(crate) fn gives(v: Value) -> Answer
    ensures { result ≡ gives v }
{
    Answer::Gives {
        edit: Edit::Nothing,
        value: v,
    }
}

/// A new exception of this class is thrown, whose message is null.
pub(crate) fn throws(class: u32) -> Answer
    ensures { result ≡ throws class }
{
    Answer::Throws {
        class,
        message: Value::Null,
    }
}

/// NullPointerException.
pub(crate) fn on_null() -> Answer
    ensures { result ≡ on_null }
{
    throws(6)
}

/// ClassCastException.
pub(crate) fn bad_cast() -> Answer
    ensures { result ≡ bad_cast }
{
    throws(7)
}

fn value_or_wrong(alloc: Global, v: Option<&Value>) -> Result<Answer, NoMemory>
    ensures { IfOk result (λ a. a ≡ value_or_wrong (option_copied v.entry)) }
{
    match v {
        Some(v) => Ok(gives(v.copy(alloc)?)),
        None => Ok(Answer::Wrong),
    }
}

// The value of a field by its number in the object.
fn read_at(alloc: Global, o: &Object, number: Option<usize>) -> Result<Answer, NoMemory>
    ensures { IfOk result (λ a. a ≡ read o.now number) }
{
    match number {
        Some(at) => value_or_wrong(alloc, o.fields.get(at)),
        None => Ok(Answer::Wrong),
    }
}

/// The field of an object.
pub(crate) fn read(
    alloc: Global,
    p: &Program,
    h: &Heap,
    of: &Value,
    class: u32,
    field: u32,
) -> Result<Answer, NoMemory>
    ensures { IfOk result (λ a. a ≡ of_object h.now of.now (λ r o. read o (field_number p.now.classes o.class class field))) }
{
    match of {
        Value::Ref(r) => match h.objects.get(*r as usize) {
            Some(o) => {
                let number = field_number(p.classes.as_slice(), o.class, class, field)?;
                read_at(alloc, o, number)
            }
            None => Ok(Answer::Wrong),
        },
        Value::Null => Ok(on_null()),
        _ => Ok(Answer::Wrong),
    }
}

fn written(r: u32, new: Value, number: Option<usize>) -> Answer
    ensures { result ≡ written r new number }
{
    match number {
        Some(at) => Answer::Gives {
            edit: Edit::Field {
                object: r,
                at,
                value: new,
            },
            value: Value::Unit,
        },
        None => Answer::Wrong,
    }
}

/// A value is stored into the field of an object.
pub(crate) fn write(
    p: &Program,
    h: &Heap,
    of: &Value,
    class: u32,
    field: u32,
    new: Value,
) -> Result<Answer, NoMemory>
    ensures { IfOk result (λ a. a ≡ of_object h.now of.now (λ r o. written r new (field_number p.now.classes o.class class field))) }
{
    match of {
        Value::Ref(r) => match h.objects.get(*r as usize) {
            Some(o) => {
                let number = field_number(p.classes.as_slice(), o.class, class, field)?;
                Ok(written(*r, new, number))
            }
            None => Ok(Answer::Wrong),
        },
        Value::Null => Ok(on_null()),
        _ => Ok(Answer::Wrong),
    }
}

fn exchanged_if(r: u32, at: usize, new: Value, is_old: bool) -> Answer
    ensures { result ≡ exchanged_if r at new is_old }
{
    if is_old {
        Answer::Gives {
            edit: Edit::Field {
                object: r,
                at,
                value: new,
            },
            value: Value::Bool(true),
        }
    } else {
        gives(Value::Bool(false))
    }
}

fn exchanged(r: u32, o: &Object, old: &Value, new: Value, number: Option<usize>) -> Answer
    ensures { result ≡ exchanged r o.now old.now new number }
{
    match number {
        Some(at) => match o.fields.get(at) {
            Some(v) => exchanged_if(r, at, new, same(old, v)),
            None => Answer::Wrong,
        },
        None => Answer::Wrong,
    }
}

/// The new value is stored where the field holds the old one.
pub(crate) fn exchange(
    p: &Program,
    h: &Heap,
    of: &Value,
    class: u32,
    field: u32,
    old: &Value,
    new: Value,
) -> Result<Answer, NoMemory>
    ensures { IfOk result (λ a. a ≡ of_object h.now of.now (λ r o. exchanged r o old.now new (field_number p.now.classes o.class class field))) }
{
    match of {
        Value::Ref(r) => match h.objects.get(*r as usize) {
            Some(o) => {
                let number = field_number(p.classes.as_slice(), o.class, class, field)?;
                Ok(exchanged(*r, o, old, new, number))
            }
            None => Ok(Answer::Wrong),
        },
        Value::Null => Ok(on_null()),
        _ => Ok(Answer::Wrong),
    }
}
