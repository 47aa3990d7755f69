//! Starts of threads.

ghost use Rattle.std.specs.Prelude.{◌≡◌, IfOk};
ghost use Rattle.std.specs.Option.{option_copied};
ghost use Rattle.sm_rule.specs.Perform.{of_object, run_entry, starts_if, starts_in, starts_on, starts_fresh, field_at, starts};
ghost use Rattle.sm_state.specs.Layout.{field_number};
ghost use Rattle.sm_act.specs.Forms.{marked};

use crate::fields::{on_null, throws};
use sl_base::NoMemory;
use sm_decide::plain;
use sm_rule::{Answer, Edit};
use sm_state::{Entry, Heap, Object, Part, Sequence, Value, field_number};
use std::alloc::Global;
use ty_prog::{Program, find};

fn run_entry(alloc: Global, q: u32, found: Option<(u32, u32)>) -> Option<Entry>
    ensures { result ≡ run_entry q found }
{
    match found {
        Some((class, method)) => Some(Entry {
            class,
            part: Part::Method(method),
            this: Value::Ref(q),
            args: Sequence::new(alloc),
        }),
        None => None,
    }
}

// The thread is marked as started.
fn marked(r: u32, at: usize) -> Edit
    ensures { result ≡ marked r at }
{
    Edit::Field {
        object: r,
        at,
        value: Value::Bool(true),
    }
}

fn starts_if(r: u32, at: usize, entry: Option<Entry>) -> Answer
    ensures { result ≡ starts_if r at entry }
{
    match entry {
        Some(entry) => Answer::Starts {
            edit: marked(r, at),
            entry: Some(entry),
        },
        None => Answer::Wrong,
    }
}

fn starts_in(
    alloc: Global,
    p: &Program,
    r: u32,
    at: usize,
    q: u32,
    o: Option<&Object>,
) -> Result<Answer, NoMemory>
    ensures { IfOk result (λ a. a ≡ starts_in p.now r at q (option_copied o.entry)) }
{
    match o {
        Some(o) => {
            let name = plain(alloc, "run")?;
            let entry = run_entry(alloc, q, find(p, o.class, &name));
            Ok(starts_if(r, at, entry))
        }
        None => Ok(Answer::Wrong),
    }
}

fn starts_on(
    alloc: Global,
    p: &Program,
    h: &Heap,
    r: u32,
    at: usize,
    target: Option<&Value>,
) -> Result<Answer, NoMemory>
    ensures { IfOk result (λ a. a ≡ starts_on p.now h.now r at (option_copied target.entry)) }
{
    match target {
        Some(Value::Null) => Ok(Answer::Starts {
            edit: marked(r, at),
            entry: None,
        }),
        Some(Value::Ref(q)) => starts_in(alloc, p, r, at, *q, h.objects.get(*q as usize)),
        _ => Ok(Answer::Wrong),
    }
}

fn starts_fresh(
    alloc: Global,
    p: &Program,
    h: &Heap,
    r: u32,
    at: usize,
    started: Option<&Value>,
    target: Option<&Value>,
) -> Result<Answer, NoMemory>
    ensures { IfOk result (λ a. a ≡ starts_fresh p.now h.now r at (option_copied started.entry) (option_copied target.entry)) }
{
    match started {
        Some(Value::Bool(true)) => Ok(throws(11)),
        Some(Value::Bool(false)) => starts_on(alloc, p, h, r, at, target),
        _ => Ok(Answer::Wrong),
    }
}

fn field_at(o: &Object, number: Option<usize>) -> Option<&Value>
    ensures { option_copied result ≡ field_at o.now number }
{
    match number {
        Some(at) => o.fields.get(at),
        None => None,
    }
}

fn starts(
    alloc: Global,
    p: &Program,
    h: &Heap,
    r: u32,
    o: &Object,
    number: Option<usize>,
) -> Result<Answer, NoMemory>
    ensures { IfOk result (λ a. a ≡ starts p.now h.now r o.now number) }
{
    match number {
        Some(at) => {
            let target = field_number(p.classes.as_slice(), o.class, 1, 0)?;
            starts_fresh(alloc, p, h, r, at, o.fields.get(at), field_at(o, target))
        }
        None => Ok(Answer::Wrong),
    }
}

/// A thread is started.
pub(crate) fn start(alloc: Global, p: &Program, h: &Heap, v: &Value) -> Result<Answer, NoMemory>
    ensures { IfOk result (λ a. a ≡ of_object h.now v.now (λ r o. starts p.now h.now r o (field_number p.now.classes o.class 1 1))) }
{
    match v {
        Value::Ref(r) => match h.objects.get(*r as usize) {
            Some(o) => {
                let number = field_number(p.classes.as_slice(), o.class, 1, 1)?;
                starts(alloc, p, h, *r, o, number)
            }
            None => Ok(Answer::Wrong),
        },
        Value::Null => Ok(on_null()),
        _ => Ok(Answer::Wrong),
    }
}
