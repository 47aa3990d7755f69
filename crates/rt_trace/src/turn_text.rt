//! The text of a turn.

ghost use Rattle.std.specs.Prelude.{◌≡◌, ◌++◌, OnOk};
ghost use Rattle.rt_trace.specs.Turns.{turn_line};

use crate::NoMemory;
use itoa::Buffer;
use runs::Turn;

// Appends the line of a turn.
pub(crate) fn put_turn(turn: Turn, into: &mut Vec<u8>) -> Result<(), NoMemory>
    ensures { OnOk result (into.new.items ≡ into.old.items ++ turn_line turn) }
{
    into.extend_from_slice(Buffer::new().format(turn.thread).as_bytes())?;
    into.push(b' ')?;
    into.extend_from_slice(Buffer::new().format(turn.count).as_bytes())?;
    into.push(b'\n')?;
    Ok(())
}
