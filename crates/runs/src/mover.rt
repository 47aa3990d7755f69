//! Whether a run is over.

ghost use Rattle.std.specs.Prelude.{◌↔◌, MatchOption, IsTrue};
ghost use Rattle.runs.specs.Planned.{Moves, NoneMoves};

use crate::next_step::NextStep;
use crate::standing::Standing;

/// Whether a thread can move.
pub fn can_move<M: Standing>(machine: &M, thread: u32) -> bool
    ensures { IsTrue result ↔ Moves ((M.system machine.now).next (M.state machine.now) thread) }
{
    match machine.what_next(thread) {
        NextStep::Moves => true,
        _ => false,
    }
}

/// A thread that can move: one of these two, or the least one.
pub fn mover<M: Standing>(machine: &M, one: u32, other: u32) -> Option<u32>
    ensures { MatchOption result (NoneMoves (M.system machine.now) (M.state machine.now))
        (λ thread. Moves ((M.system machine.now).next (M.state machine.now) thread)) }
{
    if can_move(machine, one) {
        return Some(one);
    }
    if can_move(machine, other) {
        return Some(other);
    }
    for before in 0..machine.threads() {
        if can_move(machine, before + 1) {
            return Some(before + 1);
        }
    }
    None
}
