//! Texts of exceptions (`java/lang/Throwable`).

ghost use Rattle.std.specs.Prelude.{◌≡◌, ◌++◌, ◌<◌, drop, length, codes, IfOk};
ghost use Rattle.std.specs.Option.{option_copied};
ghost use Rattle.vm_native.specs.Acts.{Acts};
ghost use Rattle.vm_state.specs.Natives.{class_text, message_in, gives_or_fails, throwable_text, throwable_to_string};

use crate::kinds::give_text;
use crate::names::class_text;
use crate::strings::{join, join_text};
use cf_link::built_in::{OUT_OF_MEMORY_ERROR, THROWABLE};
use cf_link::{Linked, conforms};
use sl_base::{Name, NoMemory};
use std::alloc::Global;
use vm_state::{Frame, Heap, HeapEffect, StuckKind, Value, field_at};

/// The message that this value of an exception's first field is, if it is one.
pub fn message_in(h: &Heap, v: Option<Value>) -> Option<&Name>
    ensures { option_copied result ≡ message_in h.now v }
{
    match v {
        Some(Value::Text(at)) => h.texts.get(at as usize),
        _ => None,
    }
}

#[tactic(auto, using(crate::proofs::Characters::colon_chars))]
fn colon(alloc: Global) -> Result<Name, NoMemory>
    ensures { IfOk result (λ text. text ≡ codes ": ") }
{
    Ok(Name::from_text(alloc, ": ")?)
}

/// The name of a class, and a colon.
fn front(alloc: Global, k: &Linked, of: u32) -> Result<Name, NoMemory>
    ensures { IfOk result (λ text. text ≡ class_text k.now of ++ codes ": ") }
{
    let name = class_text(alloc, k, of)?;
    let mark = colon(alloc)?;
    join(alloc, &name, &mark)
}

/// The text of an exception; None where it would have too many UTF-16 units.
fn throwable_text(
    alloc: Global,
    k: &Linked,
    of: u32,
    message: Option<&Name>,
) -> Result<Option<Name>, NoMemory>
    ensures { IfOk result (λ text. text ≡ throwable_text k.now of (option_copied message.entry)) }
{
    match message {
        None => Ok(Some(class_text(alloc, k, of)?)),
        Some(message) => {
            let front = front(alloc, k, of)?;
            join_text(alloc, &front, message)
        }
    }
}

/// A new text in the place of the top operand, or an exception where it would be too long.
fn give_or_fail(h: &mut Heap, f: &mut Frame, text: Option<Name>) -> HeapEffect
    requires pc { f.old.pc < 65535 }
    requires some { 0 < length f.old.stack.values }
    ensures { Acts (gives_or_fails h.old f.old (drop 1 f.old.stack.values) text) result h.old h.new f.old f.new }
{
    match text {
        None => HeapEffect::Fail(OUT_OF_MEMORY_ERROR),
        Some(text) => give_text(h, f, text),
    }
}

fn tell(
    alloc: Global,
    k: &Linked,
    h: &mut Heap,
    f: &mut Frame,
    of: u32,
    message: Option<Value>,
) -> HeapEffect
    requires pc { f.old.pc < 65535 }
    requires some { 0 < length f.old.stack.values }
    ensures { Acts (gives_or_fails h.old f.old (drop 1 f.old.stack.values) (throwable_text k.now of (message_in h.old message))) result h.old h.new f.old f.new }
{
    match throwable_text(alloc, k, of, message_in(h, message)) {
        Err(_) => HeapEffect::Memory,
        Ok(text) => give_or_fail(h, f, text),
    }
}

/// `Throwable.toString()S`: without memory nothing changes.
pub fn throwable_to_string(alloc: Global, k: &Linked, h: &mut Heap, f: &mut Frame) -> HeapEffect
    requires { f.old.pc < 65535 }
    ensures { Acts (throwable_to_string k.now h.old f.old f.old.stack.values) result h.old h.new f.old f.new }
{
    match f.stack.top() {
        None => HeapEffect::Stuck(StuckKind::Stack),
        Some(Value::Ref { at, class: of }) => {
            if conforms(k.classes.as_slice(), of, THROWABLE) {
                let message = field_at(h, at, 0);
                tell(alloc, k, h, f, of, message)
            } else {
                HeapEffect::Stuck(StuckKind::WrongKind)
            }
        }
        Some(_) => HeapEffect::Stuck(StuckKind::WrongKind),
    }
}
