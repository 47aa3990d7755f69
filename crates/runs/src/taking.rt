//! One turn of a run.

ghost use Rattle.std.specs.Prelude.{◌≡◌, ◌++◌, ◌↔◌, IfOk, IsTrue};
ghost use Rattle.runs.specs.Made.{IsCut};
ghost use Rattle.runs.specs.Planned.{IsHalted, kept};

use crate::NoMemory;
use crate::next_step::NextStep;
use crate::standing::Standing;
use crate::threaded::Threaded;
use crate::turn::Turn;
use sqlite_items::Items;
use std::alloc::Global;

/// The moves that a turn made, and whether it halted at a stuck step.
#[derive(Clone, Copy)]
pub struct Taken {
    pub made: u32,
    pub halted: bool,
}

/// The moves of a turn within the budget.
fn cut_moves<M: Threaded>(
    alloc: Global,
    machine: &mut M,
    turn: Turn,
    left: u32,
) -> Result<u32, NoMemory>
    ensures system { M.system machine.new ≡ M.system machine.old }
    ensures cut { IfOk result (λ made. IsCut (M.system machine.old) left (M.state machine.old) turn made (M.state machine.new)) }
{
    let made = machine.moves(alloc, turn.thread, left.min(turn.count))?;
    Ok(made)
}

/// Whether a turn that made so many moves isn't over, and its thread stands at a stuck step.
fn is_halted<M: Standing>(machine: &M, turn: Turn, made: u32) -> bool
    ensures { IsTrue result ↔ IsHalted (M.system machine.now) turn made (M.state machine.now) }
{
    if made < turn.count {
        if let NextStep::Stuck = machine.what_next(turn.thread) {
            return true;
        }
    }
    false
}

/// Takes a turn, with so many moves left; what it makes goes to the end of the schedule.
pub fn take_turn<M: Threaded>(
    alloc: Global,
    machine: &mut M,
    turn: Turn,
    left: u32,
    schedule: &mut Items<Turn>,
) -> Result<Taken, NoMemory>
    ensures system { M.system machine.new ≡ M.system machine.old }
    ensures schedule { IfOk result (λ taken. schedule.new ≡ schedule.old ++ kept turn.thread taken.made) }
    ensures cut { IfOk result (λ taken.
        IsCut (M.system machine.old) left (M.state machine.old) turn taken.made (M.state machine.new)) }
    ensures halted { IfOk result (λ taken.
        IsTrue taken.halted ↔ IsHalted (M.system machine.old) turn taken.made (M.state machine.new)) }
{
    let made = cut_moves(alloc, machine, turn, left)?;
    if made > 0 {
        schedule.push(Turn {
            thread: turn.thread,
            count: made,
        })?;
    }
    let halted = is_halted(machine, turn, made);
    Ok(Taken { made, halted })
}
