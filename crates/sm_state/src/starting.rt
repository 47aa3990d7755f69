//! The first state of a program.

ghost use Rattle.std.specs.Prelude.{◌≡◌, Some, map, replicate, IfOk, IsTrue};
ghost use Rattle.std.specs.Char.{is_ascii};
ghost use Rattle.std.specs.List.{list_all};
ghost use Rattle.sm_state.specs.Entering.{first_heap, main_entry, main_in, main_context, start};
ghost use Rattle.sm_state.specs.declared.module.Module.TheVariants as modules;
ghost use Rattle.sm_state.specs.declared.value.Value.TheVariants as value;

use crate::entry::{Body, Entry, begin, enter, method_at, method_body};
use crate::heap::Heap;
use crate::module::Module;
use crate::part::Part;
use crate::sequence::Sequence;
use crate::state::State;
use crate::thread::Context;
use crate::value::Value;
use sl_base::{Name, NoMemory};
use std::alloc::{AllocError, Global};
use ty_prog::{Class, Method, Program, find};

// No object definition is initialised.
fn not_yet(alloc: Global, classes: &[Class]) -> Result<Sequence<Module>, NoMemory>
    ensures { IfOk result (λ made. made ≡ map (λ c. modules.NotYet) classes.now) }
{
    let mut made = Sequence::new(alloc);
    for class in classes {
        made.push(Module::NotYet)?;
    }
    Ok(made)
}

fn first_heap(alloc: Global, p: &Program) -> Result<Heap, NoMemory>
    ensures { IfOk result (λ made. made ≡ first_heap p.now) }
{
    Ok(Heap {
        objects: Sequence::new(alloc),
        latches: Sequence::new(alloc),
        modules: not_yet(alloc, p.classes.as_slice())?,
        trace: Sequence::new(alloc),
    })
}

// So many nulls.
fn nulls(alloc: Global, count: usize) -> Result<Sequence<Option<Value>>, NoMemory>
    ensures { IfOk result (λ made. made ≡ replicate count (Some value.Null)) }
{
    let mut made = Sequence::new(alloc);
    for n in 0..count {
        made.push(Some(Value::Null))?;
    }
    Ok(made)
}

// The context before `main`.
fn main_in<'p>(
    alloc: Global,
    class: u32,
    method: u32,
    m: &'p Method,
) -> Result<Option<Context<'p>>, NoMemory>
    ensures { IfOk result (λ made. made ≡ main_in class method m.now) }
{
    match method_body(m) {
        None => Ok(None),
        Some(body) => {
            let entry = Entry {
                class,
                part: Part::Method(method),
                this: Value::Null,
                args: nulls(alloc, m.params.len())?,
            };
            Ok(Some(enter(alloc, entry, body)?))
        }
    }
}

fn main_context(alloc: Global, p: &Program) -> Result<Option<Context<'_>>, NoMemory>
    ensures { IfOk result (λ made. made ≡ main_context p.now) }
{
    let name = plain(alloc, "main")?;
    match find(p, p.main, &name) {
        None => Ok(None),
        Some((class, method)) => match method_at(p, class, method) {
            None => Ok(None),
            Some(m) => main_in(alloc, class, method, m),
        },
    }
}

// The name with this text, whose characters are its bytes.
fn plain(alloc: Global, text: &str) -> Result<Name, AllocError>
    requires { IsTrue (list_all is_ascii text.now) }
    ensures { IfOk result (λ name. name ≡ text.now) }
{
    Name::from_text(alloc, text)
}

/// The first state of a program: thread 1 before `main`. Errors: want of memory.
pub fn start(alloc: Global, p: &Program) -> Result<State<'_>, NoMemory>
    ensures { IfOk result (λ made. made ≡ start p.now) }
{
    let mut threads = Sequence::new(alloc);
    threads.push(begin(alloc, main_context(alloc, p)?)?)?;
    Ok(State {
        heap: first_heap(alloc, p)?,
        threads,
    })
}
