//! How a run ends in a state, told by one walk over its threads.

ghost use Rattle.std.specs.Prelude.{ℕ, MatchOption};
ghost use Rattle.runs.specs.Ends.{EndsAs, EndsByState, NoneStuck, SomeMoves};
ghost use Rattle.runs.specs.Course.{Stops};

use crate::ending::Ending;
use crate::next_step::NextStep;
use crate::standing::Standing;

/// How a run ends in this state whatever its budget; None where some thread can move and none is stuck.
pub fn ending_of<M: Standing>(machine: &M) -> Option<Ending>
    ensures { MatchOption result
        (SomeMoves (M.system machine.now) (M.state machine.now) × NoneStuck (M.system machine.now) (M.state machine.now))
        (λ end. EndsByState (M.system machine.now) (M.state machine.now) end) }
{
    let mut moves = false;
    let mut waits = false;
    for before in 0..machine.threads() {
        let thread = before + 1;
        match machine.what_next(thread) {
            NextStep::Stuck => return Some(Ending::Stuck { thread }),
            NextStep::Moves => moves = true,
            NextStep::Waits => waits = true,
            NextStep::Ended => {}
        }
    }
    if moves {
        None
    } else if waits {
        Some(Ending::Deadlock)
    } else {
        Some(Ending::Finished)
    }
}

/// How a run ends that stops here.
pub fn ended<M: Standing>(machine: &M) -> Ending
    ensures { (left : ℕ) → Stops (M.system machine.now) left (M.state machine.now)
        → EndsAs (M.system machine.now) left (M.state machine.now) result }
{
    match ending_of(machine) {
        Some(end) => end,
        None => Ending::Budget,
    }
}
