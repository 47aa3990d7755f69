//! Parts of classes as they are entered.

ghost use Rattle.std.specs.Prelude.{◌≡◌, ◌-◌, ◌++◌, None, replicate, length, IfOk, OnOk};
ghost use Rattle.std.specs.Option.{option_copied};
ghost use Rattle.sm_state.specs.Entering.{body_of, body_in, method_body, entered, begun_thread, method_at};

use crate::part::Part;
use crate::sequence::Sequence;
use crate::spot::Spot;
use crate::stack::Stack;
use crate::thread::{Context, Thread};
use crate::value::Value;
use sl_base::NoMemory;
use std::alloc::Global;
use ty_prog::{Class, Method, Node, Program};

/// A part of a class to be entered, with `this` and the arguments, which its first locals hold.
#[derive(Debug, Drop)]
pub struct Entry {
    pub class: u32,
    pub part: Part,
    pub this: Value,
    pub args: Sequence<Option<Value>>,
}

/// The tree of a part, and how many locals it has.
#[derive(Drop)]
pub struct Body<'p> {
    pub node: Spot<'p>,
    pub locals: u32,
}

// The tree of a method, and how many locals it has.
pub(crate) fn method_body(m: &Method) -> Option<Body<'_>>
    ensures { result ≡ method_body m.now }
{
    match &m.body {
        Some(e) => Some(Body {
            node: Spot::new(Node::Expr(e)),
            locals: m.locals,
        }),
        None => None,
    }
}

// The same of a part of a class.
fn body_in(class: &Class, part: Part) -> Option<Body<'_>>
    ensures { result ≡ body_in class.now part }
{
    match part {
        Part::Method(m) => match class.methods.get(m as usize) {
            Some(m) => method_body(m),
            None => None,
        },
        Part::Init(cell) => match class.cells.get(cell as usize) {
            Some(cell) => Some(Body {
                node: Spot::new(Node::Expr(&cell.init)),
                locals: cell.locals,
            }),
            None => None,
        },
        Part::Constructor => Some(Body {
            node: Spot::new(Node::Constructor(class)),
            locals: class.locals,
        }),
    }
}

/// The tree of a part of a class; None where there is no such part, or it has none.
pub fn body_of(p: &Program, class: u32, part: Part) -> Option<Body<'_>>
    ensures { result ≡ body_of p.now class part }
{
    match p.classes.get(class as usize) {
        Some(class) => body_in(class, part),
        None => None,
    }
}

/// The method of a class with this number.
pub fn method_at(p: &Program, class: u32, method: u32) -> Option<&Method>
    ensures { option_copied result ≡ method_at p.now class method }
{
    match p.classes.get(class as usize) {
        Some(class) => class.methods.get(method as usize),
        None => None,
    }
}

// So many locals more, none of them set.
fn add_unset(locals: &mut Sequence<Option<Value>>, count: usize) -> Result<(), NoMemory>
    ensures { OnOk result (locals.new ≡ locals.old ++ replicate count None) }
{
    for n in 0..count {
        locals.push(None)?;
    }
    Ok(())
}

/// The context of a part as it is entered. Errors: want of memory.
pub fn enter<'p>(alloc: Global, entry: Entry, body: Body<'p>) -> Result<Context<'p>, NoMemory>
    ensures { IfOk result (λ made. made ≡ entered entry body.entry) }
{
    let Entry {
        class,
        part,
        this,
        args,
    } = entry;
    let mut locals = args;
    let missing = (body.locals as usize).saturating_sub(locals.len());
    add_unset(&mut locals, missing)?;
    Ok(Context {
        class,
        part,
        this,
        node: body.node,
        levels: Stack::new(alloc),
        operands: Stack::new(alloc),
        locals,
    })
}

/// A thread with this context, or one that has ended. Errors: want of memory.
pub fn begin<'p>(alloc: Global, context: Option<Context<'p>>) -> Result<Thread<'p>, NoMemory>
    ensures { IfOk result (λ made. made ≡ begun_thread context.entry) }
{
    let mut contexts = Stack::new(alloc);
    if let Some(context) = context {
        contexts.push(context)?;
    }
    Ok(Thread {
        contexts,
        value: None,
        thrown: None,
    })
}
