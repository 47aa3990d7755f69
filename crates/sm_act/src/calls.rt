//! Calls.

ghost use Rattle.std.specs.Prelude.{◌≡◌, Some, IfOk};
ghost use Rattle.std.specs.Option.{option_copied};
ghost use Rattle.sm_rule.specs.Perform.{enters, selected, enters_on, with_first, constructor_entry, superclass_at, superclass, constructs_above, directly, of_object};
ghost use Rattle.sm_rule.specs.declared.answer.Answer.TheVariants as answer;
ghost use Rattle.sm_rule.specs.declared.answer.Edit.TheVariants as edit;
ghost use Rattle.sm_state.specs.Entering.{method_at};
ghost use Rattle.sm_state.specs.declared.value.Value.TheVariants as value;
ghost use Rattle.ty_prog.specs.Find.{super_find};

use crate::arguments::first_of;
use crate::fields::{gives, on_null};
use sl_base::{Name, NoMemory};
use sm_rule::{Answer, Args, Edit};
use sm_state::{Entry, Heap, Part, Value, method_at};
use std::alloc::Global;
use ty_prog::{Kind, Method, Program, find, super_find};

/// The method with these numbers is entered, if there is one.
pub(crate) fn enters(this: Value, args: Args, found: Option<(u32, u32)>) -> Answer
    ensures { result ≡ enters this args found }
{
    match found {
        Some((class, method)) => Answer::Enters {
            edit: Edit::Nothing,
            entry: Entry {
                class,
                part: Part::Method(method),
                this,
                args,
            },
        },
        None => Answer::Wrong,
    }
}

fn selected(p: &Program, of: u32, m: Option<&Method>) -> Option<(u32, u32)>
    ensures { result ≡ selected p.now of (option_copied m.entry) }
{
    match m {
        Some(m) => find(p, of, &m.name),
        None => None,
    }
}

// A call of a member of this object, by what its class selects.
fn call_on(p: &Program, h: &Heap, class: u32, method: u32, this: Value, rest: Args) -> Answer
    ensures { result ≡ of_object h.now this (λ r o. enters (value.Ref r) rest (selected p.now o.class (method_at p.now class method))) }
{
    match this {
        Value::Ref(r) => match h.objects.get(r as usize) {
            Some(o) => {
                let found = selected(p, o.class, method_at(p, class, method));
                enters(Value::Ref(r), rest, found)
            }
            None => Answer::Wrong,
        },
        Value::Null => on_null(),
        _ => Answer::Wrong,
    }
}

/// A call of the method that the object's class has of a method's name.
#[tactic(auto, using(crate::proofs::Listed::with_first_of, crate::proofs::Listed::with_first_none))]
pub(crate) fn call(
    alloc: Global,
    p: &Program,
    h: &Heap,
    class: u32,
    method: u32,
    args: &Args,
) -> Result<Answer, NoMemory>
    ensures { IfOk result (λ a. a ≡ with_first (λ this rest. of_object h.now this (λ r o. enters (value.Ref r) rest (selected p.now o.class (method_at p.now class method)))) args.now) }
{
    match first_of(alloc, args)? {
        Some((this, rest)) => Ok(call_on(p, h, class, method, this, rest)),
        None => Ok(Answer::Wrong),
    }
}

/// A call by `super`.
pub(crate) fn call_super(
    p: &Program,
    h: &Heap,
    after: u32,
    name: &Name,
    this: &Value,
    args: Args,
) -> Answer
    ensures { result ≡ of_object h.now this.now (λ r o. enters (value.Ref r) args (super_find p.now o.class after name.now)) }
{
    match this {
        Value::Ref(r) => match h.objects.get(*r as usize) {
            Some(o) => enters(Value::Ref(*r), args, super_find(p, o.class, after, name)),
            None => Answer::Wrong,
        },
        Value::Null => on_null(),
        _ => Answer::Wrong,
    }
}

fn enters_on(class: u32, method: u32, this: Value, rest: Args) -> Answer
    ensures { result ≡ enters_on class method this rest }
{
    match this {
        Value::Ref(r) => enters(Value::Ref(r), rest, Some((class, method))),
        Value::Null => on_null(),
        _ => Answer::Wrong,
    }
}

// This very method on the first argument.
#[tactic(auto, using(crate::proofs::Listed::with_first_of, crate::proofs::Listed::with_first_none))]
fn on_first(alloc: Global, class: u32, method: u32, args: &Args) -> Result<Answer, NoMemory>
    ensures { IfOk result (λ a. a ≡ with_first (enters_on class method) args.now) }
{
    match first_of(alloc, args)? {
        Some((this, rest)) => Ok(enters_on(class, method, this, rest)),
        None => Ok(Answer::Wrong),
    }
}

fn directly(
    alloc: Global,
    class: u32,
    method: u32,
    args: Args,
    m: Option<&Method>,
) -> Result<Answer, NoMemory>
    ensures { IfOk result (λ a. a ≡ directly class method args (option_copied m.entry)) }
{
    match m {
        Some(m) => {
            if m.is_static {
                Ok(enters(Value::Unit, args, Some((class, method))))
            } else {
                on_first(alloc, class, method, &args)
            }
        }
        None => Ok(Answer::Wrong),
    }
}

/// A call of this very method, which may be static.
pub(crate) fn call_directly(
    alloc: Global,
    p: &Program,
    class: u32,
    method: u32,
    args: Args,
) -> Result<Answer, NoMemory>
    ensures { IfOk result (λ a. a ≡ directly class method args (method_at p.now class method)) }
{
    directly(alloc, class, method, args, method_at(p, class, method))
}

fn constructor_entry(class: u32, this: Value, args: Args) -> Entry
    ensures { result ≡ constructor_entry class this args }
{
    Entry {
        class,
        part: Part::Constructor,
        this,
        args,
    }
}

/// A constructor is entered on the first argument.
#[tactic(auto, using(crate::proofs::Listed::with_first_of, crate::proofs::Listed::with_first_none))]
pub(crate) fn construct(alloc: Global, class: u32, args: &Args) -> Result<Answer, NoMemory>
    ensures { IfOk result (λ a. a ≡ with_first (λ this rest. answer.Enters edit.Nothing (constructor_entry class this rest)) args.now) }
{
    match first_of(alloc, args)? {
        Some((this, rest)) => Ok(Answer::Enters {
            edit: Edit::Nothing,
            entry: constructor_entry(class, this, rest),
        }),
        None => Ok(Answer::Wrong),
    }
}

fn superclass_at(p: &Program, class: u32) -> Option<u32>
    ensures { result ≡ superclass_at p.now class }
{
    match p.classes.get(class as usize) {
        Some(c) => match c.kind {
            Kind::Trait => None,
            _ => Some(class),
        },
        None => None,
    }
}

fn superclass(p: &Program, class: u32) -> Option<u32>
    ensures { result ≡ superclass p.now class }
{
    match p.classes.get(class as usize) {
        Some(c) => match c.parents.as_slice().first() {
            Some(parent) => superclass_at(p, *parent),
            None => None,
        },
        None => None,
    }
}

/// The constructor of the superclass is entered, if there is one.
pub(crate) fn construct_above(p: &Program, class: u32, this: Value, args: Args) -> Answer
    ensures { result ≡ constructs_above this args (superclass p.now class) }
{
    match superclass(p, class) {
        Some(above) => Answer::Enters {
            edit: Edit::Nothing,
            entry: constructor_entry(above, this, args),
        },
        None => gives(Value::Unit),
    }
}
