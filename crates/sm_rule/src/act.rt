//! What a node does with the heap.

use sl_base::Name;
use sm_state::{Sequence, Value};
use ty_prog::{Tested, Ty};

/// The arguments of a call, as the first locals of the part that it enters.
pub type Args = Sequence<Option<Value>>;

/// What a node does with what threads share, once its operands are there. `of` is the object.
#[derive(Debug, Drop)]
pub enum Act {
    // Fields (SLS 6.4, 6.15).
    Read {
        of: Value,
        class: u32,
        field: u32,
    },
    Write {
        of: Value,
        class: u32,
        field: u32,
        new: Value,
    },
    Exchange {
        of: Value,
        class: u32,
        field: u32,
        old: Value,
        new: Value,
    },
    // Lazy members and object definitions (SIP-20, JVMS 5.5).
    ReadCell {
        of: Value,
        class: u32,
        cell: u32,
    },
    ReadModule(u32),
    SetModule {
        class: u32,
        of: Value,
    },
    // Calls, whose object is the first argument but where it is told: of the method that the object's class has of this
    // one's name; of the one that `super` means; of this very one; of a constructor, and of that of the superclass (SLS
    // 5.1, 6.5, 6.6).
    Call {
        class: u32,
        method: u32,
        args: Args,
    },
    CallSuper {
        after: u32,
        name: Name,
        this: Value,
        args: Args,
    },
    CallDirectly {
        class: u32,
        method: u32,
        args: Args,
    },
    Make(u32),
    Construct {
        class: u32,
        args: Args,
    },
    ConstructAbove {
        class: u32,
        this: Value,
        args: Args,
    },
    // Values: `==`, `equals`, the text of a value, `toString`, its class's name, conversions and tests (SLS 6.12, 12.1).
    Compare {
        one: Value,
        other: Value,
    },
    CallEquals {
        one: Value,
        other: Value,
    },
    TextOf(Value),
    CallToString(Value),
    NameClass(Value),
    Convert {
        to: Ty,
        of: Value,
    },
    Test {
        of: Value,
        test: Tested,
    },
    /// No case matches the value (SLS 8.4).
    Unmatched(Value),
    Print(Name),
    Start(Value),
    // Latches and control values, of lowered lazy members.
    Mine,
    MakeLatch(Value),
    IsMine(Value),
    Await(Value),
    CountDown(Value),
}
