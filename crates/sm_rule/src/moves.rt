//! Moves.

use crate::act::Act;
use sm_state::Value;

/// What a node is about to do, by its shape, its own operands and the locals alone. A child that begins is named by its
/// number. Unless a move says that they stay, the node's own operands go.
#[derive(Debug, Drop)]
pub enum Move {
    Stuck,
    /// The node ends with this value.
    End(Value),
    /// A value goes into a local, and the node ends.
    Store {
        local: u32,
        value: Value,
        gives: Value,
    },
    /// A child begins; operands stay.
    Turn(u32),
    /// A child begins.
    Fresh(u32),
    /// A child begins, and a value is a further operand; operands stay.
    Keep {
        child: u32,
        value: Value,
    },
    /// A child begins, with a value in a local.
    Bind {
        local: u32,
        value: Value,
        child: u32,
    },
    /// A `finally` begins; kept are whether an exception goes on behind it, and that exception or the value.
    Shelve {
        child: u32,
        raised: bool,
        value: Value,
    },
    /// The pattern of a parameter of a case class begins; kept are the object and the parameter. Where the value is no
    /// object of the class, the node ends with false.
    Open {
        class: u32,
        index: u32,
        of: Value,
    },
    /// The first child begins, and a new object of the class is kept.
    Hold(u32),
    /// The node ends with what the act gives.
    Do(Act),
    /// What the act gives is handed to the node itself, as from a child of this number.
    Again {
        own: Option<Value>,
        child: u32,
        act: Act,
    },
    /// The object is made whose constructor this is.
    Embody,
    /// The next stage of a constructor begins, or the constructor ends with its object.
    Advance(u32),
    /// The same, and the reference of the object definition is set before.
    Publish(u32),
    Raise(Value),
    /// A new exception of this class with this message is thrown.
    Fail {
        class: u32,
        message: Value,
    },
    /// The case doesn't match.
    Pass,
}
