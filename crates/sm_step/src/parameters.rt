//! The parameters of case classes.

ghost use Rattle.std.specs.Prelude.{◌≡◌, IfOk};
ghost use Rattle.std.specs.Option.{option_copied};
ghost use Rattle.sm_rule.specs.Perform.{field_at};
ghost use Rattle.sm_rule.specs.Step.{parameter_of, parameter};

use sl_base::NoMemory;
use sm_act::is_instance;
use sm_state::{Heap, Object, Value, field_number};
use std::alloc::Global;
use ty_prog::Program;

/// The value of a field, if there is one.
pub(crate) fn field_at(o: &Object, place: Option<usize>) -> Option<&Value>
    ensures { option_copied result ≡ field_at o.now place }
{
    match place {
        Some(at) => o.fields.get(at),
        None => None,
    }
}

fn copied(alloc: Global, v: Option<&Value>) -> Result<Option<Value>, NoMemory>
    ensures { IfOk result (λ made. made ≡ option_copied v.entry) }
{
    match v {
        Some(v) => Ok(Some(v.copy(alloc)?)),
        None => Ok(None),
    }
}

fn parameter_of(
    alloc: Global,
    p: &Program,
    class: u32,
    index: u32,
    o: &Object,
) -> Result<Option<Value>, NoMemory>
    ensures { IfOk result (λ v. v ≡ parameter_of p.now class index o.now) }
{
    match p.classes.get(class as usize) {
        None => Ok(None),
        Some(k) => match k.params.get(index as usize) {
            None => Ok(None),
            Some(field) => {
                let number = field_number(p.classes.as_slice(), o.class, class, *field)?;
                copied(alloc, field_at(o, number))
            }
        },
    }
}

/// The parameter of a case class that a value has, if it is an object of that class.
pub fn parameter(
    alloc: Global,
    p: &Program,
    h: &Heap,
    class: u32,
    index: u32,
    of: &Value,
) -> Result<Option<Value>, NoMemory>
    ensures { IfOk result (λ v. v ≡ parameter p.now h.now class index of.now) }
{
    match of {
        Value::Ref(r) => match h.objects.get(*r as usize) {
            None => Ok(None),
            Some(o) => {
                if is_instance(p, h, class, *r) {
                    parameter_of(alloc, p, class, index, o)
                } else {
                    Ok(None)
                }
            }
        },
        _ => Ok(None),
    }
}
