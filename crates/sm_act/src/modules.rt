//! Object definitions.

ghost use Rattle.std.specs.Prelude.{◌≡◌, slice_get, IfOk};
ghost use Rattle.sm_rule.specs.Perform.{module_entry, module_read, module_set};

use crate::fields::{gives, throws};
use sl_base::NoMemory;
use sm_rule::{Answer, Edit};
use sm_state::{Entry, Heap, Module, Part, Sequence, Value};
use std::alloc::Global;

fn module_entry(alloc: Global, class: u32) -> Entry
    ensures { result ≡ module_entry class }
{
    Entry {
        class,
        part: Part::Constructor,
        this: Value::Null,
        args: Sequence::new(alloc),
    }
}

/// A read of an object definition.
pub(crate) fn read_module(alloc: Global, h: &Heap, t: u32, class: u32) -> Result<Answer, NoMemory>
    ensures { IfOk result (λ a. a ≡ module_read t class (slice_get h.now.modules class)) }
{
    match h.modules.get(class as usize) {
        Some(Module::NotYet) => Ok(Answer::Enters {
            edit: Edit::Module {
                class,
                module: Module::Running {
                    thread: t,
                    at: Value::Null,
                },
            },
            entry: module_entry(alloc, class),
        }),
        Some(Module::Running { thread, at }) => {
            if *thread == t {
                Ok(gives(at.copy(alloc)?))
            } else {
                Ok(Answer::Waits)
            }
        }
        Some(Module::Ready(v)) => Ok(gives(v.copy(alloc)?)),
        Some(Module::Bad) => Ok(throws(15)),
        None => Ok(Answer::Wrong),
    }
}

/// The reference of an object definition is set, while its initialisation runs.
pub(crate) fn set_module(h: &Heap, class: u32, of: Value) -> Answer
    ensures { result ≡ module_set class of (slice_get h.now.modules class) }
{
    match h.modules.get(class as usize) {
        Some(Module::Running { thread, at: _ }) => Answer::Gives {
            edit: Edit::Module {
                class,
                module: Module::Running {
                    thread: *thread,
                    at: of,
                },
            },
            value: Value::Unit,
        },
        _ => Answer::Wrong,
    }
}
