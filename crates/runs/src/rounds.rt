//! Turns of a round robin.

ghost use Rattle.std.specs.Prelude.{◌≡◌, ◌++◌, ◌-◌, ◌<◌, List, IfOk, None};
ghost use Rattle.runs.specs.declared.turn.Turn.{Turn};
ghost use Rattle.runs.specs.Course.{Course};
ghost use Rattle.runs.specs.Ends.{EndsAs};
ghost use Rattle.runs.specs.Planned.{Round, total};

use crate::NoMemory;
use crate::circle::next_after;
use crate::ending::Ending;
use crate::judging::ended;
use crate::taking::take_turn;
use crate::threaded::Threaded;
use crate::turn::Turn;
use sqlite_items::Items;
use std::alloc::Global;

/// A round robin from thread 1 on; its turns go to the end of the schedule.
pub fn rounds<M: Threaded>(
    alloc: Global,
    machine: &mut M,
    quantum: u32,
    budget: u32,
    schedule: &mut Items<Turn>,
) -> Result<(), NoMemory>
    requires { 0 < quantum }
    ensures system { M.system machine.new ≡ M.system machine.old }
    ensures rounds { IfOk result (λ _. (turns : List Turn) × (schedule.new ≡ schedule.old ++ turns)
        × Course (M.system machine.old) budget (Round quantum 0) (M.state machine.old) turns None (M.state machine.new)) }
{
    let mut left = budget;
    let mut last = 0;
    while left > 0 {
        let Some(thread) = next_after(machine, last) else {
            return Ok(());
        };
        let turn = Turn {
            thread,
            count: quantum,
        };
        let taken = take_turn(alloc, machine, turn, left, schedule)?;
        if taken.halted {
            return Ok(());
        }
        left -= taken.made;
        last = thread;
    }
    Ok(())
}

/// The same, and how it ends.
pub fn go_round<M: Threaded>(
    alloc: Global,
    machine: &mut M,
    quantum: u32,
    budget: u32,
    schedule: &mut Items<Turn>,
) -> Result<Ending, NoMemory>
    requires { 0 < quantum }
    ensures system { M.system machine.new ≡ M.system machine.old }
    ensures rounds { IfOk result (λ end. (turns : List Turn) × (schedule.new ≡ schedule.old ++ turns)
        × Course (M.system machine.old) budget (Round quantum 0) (M.state machine.old) turns None (M.state machine.new)
        × EndsAs (M.system machine.old) (budget - total turns) (M.state machine.new) end) }
{
    rounds(alloc, machine, quantum, budget, schedule)?;
    Ok(ended(machine))
}
