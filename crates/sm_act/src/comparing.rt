//! Equality, texts and names of values.

ghost use Rattle.std.specs.Prelude.{◌≡◌, IfOk};
ghost use Rattle.sm_rule.specs.Perform.{class_name, name_of, equals_called, compared, equals_answer, text_or_wrong, text_called, text_answer, to_string_answer, match_error};

use crate::calls::enters;
use crate::fields::{gives, on_null};
use crate::texts::plain_text;
use sl_base::{Name, NoMemory};
use sm_decide::{equal, plain, same};
use sm_rule::{Answer, Args};
use sm_state::{Heap, Object, Sequence, Value};
use std::alloc::Global;
use ty_prog::{Program, find};

/// The name of a class.
pub fn class_name(alloc: Global, p: &Program, class: u32) -> Result<Option<Name>, NoMemory>
    ensures { IfOk result (λ name. name ≡ class_name p.now class) }
{
    match p.classes.get(class as usize) {
        Some(c) => Ok(Some(c.name.copy(alloc)?)),
        None => Ok(None),
    }
}

/// The name of the class of a value.
pub(crate) fn name_of(
    alloc: Global,
    p: &Program,
    h: &Heap,
    v: &Value,
) -> Result<Option<Name>, NoMemory>
    ensures { IfOk result (λ name. name ≡ name_of p.now h.now v.now) }
{
    match v {
        Value::Unit => Ok(Some(plain(alloc, "Unit")?)),
        Value::Bool(_) => Ok(Some(plain(alloc, "Boolean")?)),
        Value::Int(_) => Ok(Some(plain(alloc, "Integer")?)),
        Value::Long(_) => Ok(Some(plain(alloc, "Long")?)),
        Value::Text(_) => Ok(Some(plain(alloc, "String")?)),
        Value::Null => Ok(Some(plain(alloc, "null")?)),
        Value::Ref(r) => match h.objects.get(*r as usize) {
            Some(o) => class_name(alloc, p, o.class),
            None => Ok(None),
        },
        _ => Ok(Some(plain(alloc, "Object")?)),
    }
}

fn equals_called(
    alloc: Global,
    r: u32,
    other: Value,
    found: Option<(u32, u32)>,
) -> Result<Answer, NoMemory>
    ensures { IfOk result (λ a. a ≡ equals_called r other found) }
{
    if found.is_none() {
        return Ok(gives(Value::Bool(same(&Value::Ref(r), &other))));
    }
    let mut args: Args = Sequence::new(alloc);
    args.push(Some(other))?;
    Ok(enters(Value::Ref(r), args, found))
}

/// `==`.
pub(crate) fn compare(
    alloc: Global,
    p: &Program,
    h: &Heap,
    one: &Value,
    other: Value,
) -> Result<Answer, NoMemory>
    ensures { IfOk result (λ a. a ≡ compared p.now h.now one.now other) }
{
    match one {
        Value::Ref(r) => match h.objects.get(*r as usize) {
            Some(o) => {
                let name = plain(alloc, "equals")?;
                equals_called(alloc, *r, other, find(p, o.class, &name))
            }
            None => Ok(Answer::Wrong),
        },
        _ => Ok(gives(Value::Bool(equal(one, &other)))),
    }
}

/// A call of `equals`.
pub(crate) fn call_equals(
    alloc: Global,
    p: &Program,
    h: &Heap,
    one: &Value,
    other: Value,
) -> Result<Answer, NoMemory>
    ensures { IfOk result (λ a. a ≡ equals_answer p.now h.now one.now other) }
{
    match one {
        Value::Null => Ok(on_null()),
        _ => compare(alloc, p, h, one, other),
    }
}

fn text_or_wrong(text: Option<Name>) -> Answer
    ensures { result ≡ text_or_wrong text }
{
    match text {
        Some(t) => gives(Value::Text(t)),
        None => Answer::Wrong,
    }
}

fn text_called(
    alloc: Global,
    p: &Program,
    r: u32,
    o: &Object,
    found: Option<(u32, u32)>,
) -> Result<Answer, NoMemory>
    ensures { IfOk result (λ a. a ≡ text_called p.now r o.now found) }
{
    match found {
        Some(_) => Ok(enters(Value::Ref(r), Sequence::new(alloc), found)),
        None => Ok(text_or_wrong(class_name(alloc, p, o.class)?)),
    }
}

/// The text of a value.
pub(crate) fn text(alloc: Global, p: &Program, h: &Heap, v: &Value) -> Result<Answer, NoMemory>
    ensures { IfOk result (λ a. a ≡ text_answer p.now h.now v.now) }
{
    match v {
        Value::Ref(r) => match h.objects.get(*r as usize) {
            Some(o) => {
                let name = plain(alloc, "toString")?;
                text_called(alloc, p, *r, o, find(p, o.class, &name))
            }
            None => Ok(Answer::Wrong),
        },
        _ => Ok(gives(Value::Text(plain_text(alloc, v)?))),
    }
}

/// A call of `toString`.
pub(crate) fn to_string(alloc: Global, p: &Program, h: &Heap, v: &Value) -> Result<Answer, NoMemory>
    ensures { IfOk result (λ a. a ≡ to_string_answer p.now h.now v.now) }
{
    match v {
        Value::Null => Ok(on_null()),
        _ => text(alloc, p, h, v),
    }
}

/// The name of the class of a value.
pub(crate) fn name_class(
    alloc: Global,
    p: &Program,
    h: &Heap,
    v: &Value,
) -> Result<Answer, NoMemory>
    ensures { IfOk result (λ a. a ≡ text_or_wrong (name_of p.now h.now v.now)) }
{
    Ok(text_or_wrong(name_of(alloc, p, h, v)?))
}

/// No case matches.
pub(crate) fn match_error(
    alloc: Global,
    p: &Program,
    h: &Heap,
    v: &Value,
) -> Result<Answer, NoMemory>
    ensures { IfOk result (λ a. a ≡ match_error (name_of p.now h.now v.now)) }
{
    match name_of(alloc, p, h, v)? {
        Some(name) => Ok(Answer::Throws {
            class: 9,
            message: Value::Text(name),
        }),
        None => Ok(Answer::Wrong),
    }
}
