//! The run of a machine over given turns.

ghost use Rattle.std.specs.Prelude.{◌≡◌, IfOk};
ghost use Rattle.runs.specs.System.{reach};

use crate::NoMemory;
use crate::threaded::Threaded;
use crate::turn::Turn;
use std::alloc::Global;

/// The machine after these turns, from its first state. A turn whose thread can't go on is over.
pub fn run<M: Threaded + Drop>(alloc: Global, machine: M, turns: &[Turn]) -> Result<M, NoMemory>
    requires { M.state machine ≡ (M.system machine).first }
    ensures system { IfOk result (λ ran. M.system ran ≡ M.system machine) }
    ensures state { IfOk result (λ ran. M.state ran ≡ (reach (M.system machine) turns.now).state) }
{
    let mut machine = machine;
    for turn in turns {
        machine.moves(alloc, turn.thread, turn.count)?;
    }
    Ok(machine)
}
