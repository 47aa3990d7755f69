//! What threads share.

use crate::seq::Seq;
use crate::thread::Thread;
use crate::value::Value;
use sl_base::Name;
use ty_prog::Event;

/// An object: its class, and its fields by their slots.
#[derive(Drop)]
pub struct Object {
    pub class: u32,
    pub fields: Seq<Value>,
}

/// How far a class is initialised (JVMS 5.5).
#[derive(Clone, Copy, Debug)]
pub enum Init {
    NotYet,
    /// By this thread.
    Running(u32),
    Ready,
    /// Its initialiser threw.
    Bad,
}

/// What threads share. `texts` begins with those of the linked set, `statics` and `inits` have an entry for each class,
/// `opened` tells of each latch whether it is open, and `born` has the threads that were started and not taken up.
#[derive(Drop)]
pub struct Heap {
    pub objects: Seq<Object>,
    pub texts: Seq<Name>,
    pub statics: Seq<Seq<Value>>,
    pub inits: Seq<Init>,
    pub opened: Seq<bool>,
    pub born: Seq<Option<Thread>>,
    pub trace: Seq<Event>,
}

/// A state of the machine.
#[derive(Drop)]
pub struct State {
    pub heap: Heap,
    pub threads: Seq<Thread>,
}
