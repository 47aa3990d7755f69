//! Whose turn is next in a round robin.

ghost use Rattle.std.specs.Prelude.{MatchOption};
ghost use Rattle.runs.specs.Planned.{ComesNext, NoneMoves};
ghost use Rattle.runs.specs.System.{AbsentHaveEnded};

use crate::next_step::NextStep;
use crate::standing::Standing;

/// The first thread in the circle after `last` that neither waits nor has ended, from thread 1 on where that is 0.
pub fn next_after<M: Standing>(machine: &M, last: u32) -> Option<u32>
    ensures next { MatchOption result (NoneMoves (M.system machine.now) (M.state machine.now))
        (λ thread. ComesNext (M.system machine.now) (M.state machine.now) last thread) }
    ensures others { AbsentHaveEnded (M.system machine.now) (M.state machine.now) }
{
    let threads = machine.threads();
    if threads == 0 {
        return None;
    }
    let mut before = last % threads;
    for _passed in 0..threads {
        let thread = before + 1;
        match machine.what_next(thread) {
            NextStep::Moves | NextStep::Stuck => return Some(thread),
            NextStep::Waits | NextStep::Ended => {}
        }
        before = if thread == threads { 0 } else { thread };
    }
    None
}
