//! What a part leaves in what threads share, where a value or an exception comes out of it.

ghost use Rattle.std.specs.Prelude.{◌≡◌, IfOk};
ghost use Rattle.sm_rule.specs.Step.{class_kind, module_edit, cell_edit_at, cell_edit, noted, dropped, awaits_object};

use sl_base::NoMemory;
use sm_rule::Edit;
use sm_state::{Context, Heap, Module, Once, Part, Value, cell_number};
use std::alloc::Global;
use ty_prog::{Kind, Program};

/// Whether this is `main` before its object is read.
pub fn awaits_object(this: &Value, part: Part) -> bool
    ensures { result ≡ awaits_object this.now part }
{
    match (this, part) {
        (Value::Null, Part::Method(_)) => true,
        _ => false,
    }
}

pub(crate) fn class_kind(p: &Program, class: u32) -> Kind
    ensures { result ≡ class_kind p.now class }
{
    match p.classes.get(class as usize) {
        Some(c) => c.kind,
        None => Kind::Class,
    }
}

fn module_edit(class: u32, state: Module, kind: Kind) -> Edit
    ensures { result ≡ module_edit class state kind }
{
    match kind {
        Kind::Object => Edit::Module {
            class,
            module: state,
        },
        _ => Edit::Nothing,
    }
}

fn cell_edit_at(object: u32, once: Once, number: Option<usize>) -> Edit
    ensures { result ≡ cell_edit_at object once number }
{
    match number {
        None => Edit::Nothing,
        Some(at) => Edit::Cell { object, at, once },
    }
}

fn cell_edit(
    p: &Program,
    h: &Heap,
    class: u32,
    cell: u32,
    once: Once,
    this: &Value,
) -> Result<Edit, NoMemory>
    ensures { IfOk result (λ edit. edit ≡ cell_edit p.now h.now class cell once this.now) }
{
    match this {
        Value::Ref(r) => match h.objects.get(*r as usize) {
            None => Ok(Edit::Nothing),
            Some(o) => {
                let number = cell_number(p.classes.as_slice(), o.class, class, cell)?;
                Ok(cell_edit_at(*r, once, number))
            }
        },
        _ => Ok(Edit::Nothing),
    }
}

/// A value comes out of a part: its cell is done, its object definition ready.
pub fn noted(
    alloc: Global,
    p: &Program,
    h: &Heap,
    c: &Context<'_>,
    v: &Value,
) -> Result<Edit, NoMemory>
    ensures { IfOk result (λ edit. edit ≡ noted p.now h.now c.now v.now c.now.part) }
{
    match c.part {
        Part::Method(_) => Ok(Edit::Nothing),
        Part::Init(cell) => cell_edit(p, h, c.class, cell, Once::Done(v.copy(alloc)?), &c.this),
        Part::Constructor => {
            let ready = Module::Ready(c.this.copy(alloc)?);
            Ok(module_edit(c.class, ready, class_kind(p, c.class)))
        }
    }
}

/// An exception comes out of a part: its cell is empty again, its object definition bad.
pub fn dropped(p: &Program, h: &Heap, c: &Context<'_>) -> Result<Edit, NoMemory>
    ensures { IfOk result (λ edit. edit ≡ dropped p.now h.now c.now c.now.part) }
{
    match c.part {
        Part::Method(_) => Ok(Edit::Nothing),
        Part::Init(cell) => cell_edit(p, h, c.class, cell, Once::Empty, &c.this),
        Part::Constructor => Ok(module_edit(c.class, Module::Bad, class_kind(p, c.class))),
    }
}
