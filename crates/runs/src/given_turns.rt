//! Given turns, one after another.

ghost use Rattle.std.specs.Prelude.{◌≡◌, ◌++◌, List, IfOk};
ghost use Rattle.runs.specs.declared.turn.Turn.{Turn};
ghost use Rattle.runs.specs.Course.{GivenMade};

use crate::NoMemory;
use crate::mover::mover;
use crate::taking::take_turn;
use crate::threaded::Threaded;
use crate::turn::Turn;
use sqlite_items::Items;
use std::alloc::Global;

/// How given turns end: they are used up with so many moves left, the run stops before that, or the turn
/// with this index names a thread that isn't there.
#[derive(Clone, Copy)]
pub enum GivenEnd {
    Used { left: u32 },
    Stopped,
    BadTurn { index: usize },
}

/// Makes the given turns that are reached; what they make goes to the end of the schedule.
pub fn given_turns<M: Threaded>(
    alloc: Global,
    machine: &mut M,
    turns: &[Turn],
    budget: u32,
    schedule: &mut Items<Turn>,
) -> Result<GivenEnd, NoMemory>
    ensures system { M.system machine.new ≡ M.system machine.old }
    ensures made { IfOk result (λ end. (done : List Turn) × (schedule.new ≡ schedule.old ++ done)
        × GivenMade (M.system machine.old) budget (M.state machine.old) turns.now done (M.state machine.new) end) }
{
    let mut left = budget;
    let mut likely = 0;
    for (index, turn) in turns.iter().enumerate() {
        if left == 0 {
            return Ok(GivenEnd::Stopped);
        }
        match mover(machine, turn.thread, likely) {
            Some(found) => likely = found,
            None => return Ok(GivenEnd::Stopped),
        }
        if turn.thread == 0 || turn.thread > machine.threads() {
            return Ok(GivenEnd::BadTurn { index });
        }
        let taken = take_turn(alloc, machine, *turn, left, schedule)?;
        if taken.halted {
            return Ok(GivenEnd::Stopped);
        }
        left -= taken.made;
    }
    Ok(GivenEnd::Used { left })
}
