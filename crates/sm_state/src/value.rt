//! Values.

ghost use Rattle.std.specs.Prelude.{◌≡◌, IfOk};

use sl_base::{Name, NoMemory};
use std::alloc::Global;

/// What an expression gives. Objects and latches are named by their numbers in the heap, counted from 0; threads are
/// counted from 1. A number, a Boolean or `()` is the same value where it is boxed.
#[derive(Debug, Drop)]
pub enum Value {
    Unit,
    Bool(bool),
    Int(i32),
    Long(i64),
    Text(Name),
    Null,
    Ref(u32),
    /// A latch, and the thread that runs the initialiser for which others wait at it.
    Latch { at: u32, owner: u32 },
    /// What stands for a lazy member whose initialiser this thread runs.
    Evaluating(u32),
    /// What stands for null in a lazy member that is done.
    NullValue,
}

impl Value {
    /// A value equal to this one. Errors: want of memory.
    pub fn copy(&self, alloc: Global) -> Result<Value, NoMemory>
        ensures { IfOk result (λ made. made ≡ self.now) }
    {
        match self {
            Value::Unit => Ok(Value::Unit),
            Value::Bool(b) => Ok(Value::Bool(*b)),
            Value::Int(n) => Ok(Value::Int(*n)),
            Value::Long(n) => Ok(Value::Long(*n)),
            Value::Text(text) => Ok(Value::Text(text.copy(alloc)?)),
            Value::Null => Ok(Value::Null),
            Value::Ref(at) => Ok(Value::Ref(*at)),
            Value::Latch { at, owner } => Ok(Value::Latch {
                at: *at,
                owner: *owner,
            }),
            Value::Evaluating(thread) => Ok(Value::Evaluating(*thread)),
            Value::NullValue => Ok(Value::NullValue),
        }
    }
}
