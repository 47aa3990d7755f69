//! What the heap answers.

use sm_state::{Entry, Module, Object, Once, Value};
use ty_prog::Event;

/// A change of what threads share.
#[derive(Debug, Drop)]
pub enum Edit {
    Nothing,
    Field {
        object: u32,
        at: usize,
        value: Value,
    },
    Cell {
        object: u32,
        at: usize,
        once: Once,
    },
    Module {
        class: u32,
        module: Module,
    },
    AddObject(Object),
    AddLatch,
    OpenLatch(u32),
    AddEvent(Event),
}

/// What comes of an act.
#[derive(Debug, Drop)]
pub enum Answer {
    /// The act gives a value.
    Gives { edit: Edit, value: Value },
    /// A part is entered, which will give the value.
    Enters { edit: Edit, entry: Entry },
    /// A thread begins, in this part or ended at once; the act gives `()`.
    Starts { edit: Edit, entry: Option<Entry> },
    /// A new exception of this class with this message is thrown.
    Throws { class: u32, message: Value },
    Waits,
    Wrong,
}
