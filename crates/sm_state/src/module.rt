//! Object definitions.

use crate::value::Value;

/// How far an object definition is initialised (JVMS 5.5). While a thread runs the initialisation there is the reference
/// as it stands: null until the constructor of the superclass is done.
#[derive(Debug, Drop)]
pub enum Module {
    NotYet,
    Running { thread: u32, at: Value },
    Ready(Value),
    Bad,
}
