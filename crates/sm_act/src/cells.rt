//! Lazy members.

ghost use Rattle.std.specs.Prelude.{◌≡◌, IfOk};
ghost use Rattle.std.specs.Option.{option_copied};
ghost use Rattle.sm_rule.specs.Perform.{init_entry, of_object, cell_read, cell_read_at};
ghost use Rattle.sm_state.specs.Layout.{cell_number};

use crate::fields::{gives, on_null, throws};
use sl_base::NoMemory;
use sm_rule::{Answer, Edit};
use sm_state::{Entry, Heap, Object, Once, Part, Sequence, Value, cell_number};
use std::alloc::Global;
use ty_prog::Program;

fn init_entry(alloc: Global, class: u32, cell: u32, r: u32) -> Entry
    ensures { result ≡ init_entry class cell r }
{
    Entry {
        class,
        part: Part::Init(cell),
        this: Value::Ref(r),
        args: Sequence::new(alloc),
    }
}

// A read of a cell by what it is.
fn read_once(
    alloc: Global,
    t: u32,
    class: u32,
    cell: u32,
    r: u32,
    at: usize,
    once: Option<&Once>,
) -> Result<Answer, NoMemory>
    ensures { IfOk result (λ a. a ≡ cell_read t class cell r at (option_copied once.entry)) }
{
    match once {
        Some(Once::Empty) => Ok(Answer::Enters {
            edit: Edit::Cell {
                object: r,
                at,
                once: Once::Running(t),
            },
            entry: init_entry(alloc, class, cell, r),
        }),
        Some(Once::Running(u)) => {
            if *u == t {
                Ok(throws(18))
            } else {
                Ok(Answer::Waits)
            }
        }
        Some(Once::Done(v)) => Ok(gives(v.copy(alloc)?)),
        None => Ok(Answer::Wrong),
    }
}

// A read of a cell by its number in the object.
fn read_at(
    alloc: Global,
    t: u32,
    class: u32,
    cell: u32,
    r: u32,
    o: &Object,
    number: Option<usize>,
) -> Result<Answer, NoMemory>
    ensures { IfOk result (λ a. a ≡ cell_read_at t class cell r o.now number) }
{
    match number {
        Some(at) => read_once(alloc, t, class, cell, r, at, o.cells.get(at)),
        None => Ok(Answer::Wrong),
    }
}

/// A read of a lazy member.
pub(crate) fn read_cell(
    alloc: Global,
    p: &Program,
    h: &Heap,
    t: u32,
    of: &Value,
    class: u32,
    cell: u32,
) -> Result<Answer, NoMemory>
    ensures { IfOk result (λ a. a ≡ of_object h.now of.now (λ r o. cell_read_at t class cell r o (cell_number p.now.classes o.class class cell))) }
{
    match of {
        Value::Ref(r) => match h.objects.get(*r as usize) {
            Some(o) => {
                let number = cell_number(p.classes.as_slice(), o.class, class, cell)?;
                read_at(alloc, t, class, cell, *r, o, number)
            }
            None => Ok(Answer::Wrong),
        },
        Value::Null => Ok(on_null()),
        _ => Ok(Answer::Wrong),
    }
}
