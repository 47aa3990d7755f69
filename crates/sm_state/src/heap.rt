//! What all threads share.

use crate::module::Module;
use crate::once::Once;
use crate::sequence::Sequence;
use crate::value::Value;
use ty_prog::Event;

/// An object. Its fields are those of its class's linearisation, class by class, and so are its cells.
#[derive(Debug, Drop)]
pub struct Object {
    pub class: u32,
    pub fields: Sequence<Value>,
    pub cells: Sequence<Once>,
}

/// What all threads share: the objects, for each latch whether it is open, for each class the state of its object
/// definition, and the trace. A class that is no object's stays as it began.
#[derive(Debug, Drop)]
pub struct Heap {
    pub objects: Sequence<Object>,
    pub latches: Sequence<bool>,
    pub modules: Sequence<Module>,
    pub trace: Sequence<Event>,
}
