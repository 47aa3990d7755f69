//! Runs over turns that are given, and then by round robin.

ghost use Rattle.std.specs.Prelude.{◌≡◌, IfOk};
ghost use Rattle.runs.specs.Ends.{GivenEndsAs};
ghost use Rattle.runs.specs.Planned.{Given, Planned, total};
ghost use Rattle.runs.specs.System.{reach};

use crate::NoMemory;
use crate::ending::Ending;
use crate::given_turns::{GivenEnd, given_turns};
use crate::judging::ended;
use crate::ran::Ran;
use crate::rounds::go_round;
use crate::threaded::Threaded;
use crate::turn::Turn;
use sqlite_items::Items;
use std::alloc::Global;

/// The quantum behind given turns.
const QUANTUM: u32 = 50;

/// Runs a machine from its first state over given turns, each cut to the moves that it makes, and then by
/// round robin, for at most `budget` moves. A bad turn whose index has more than 32 bits is answered as want of memory.
pub fn given<M: Threaded + Drop>(
    alloc: Global,
    machine: M,
    turns: &[Turn],
    budget: u32,
) -> Result<Ran<M>, NoMemory>
    requires { M.state machine ≡ (M.system machine).first }
    ensures system { IfOk result (λ ran. M.system ran.machine ≡ M.system machine) }
    ensures state { IfOk result (λ ran. M.state ran.machine ≡ (reach (M.system machine) ran.schedule).state) }
    ensures planned { IfOk result (λ ran. Planned (M.system machine) (Given turns.now) budget ran.schedule) }
    ensures ending { IfOk result (λ ran.
        GivenEndsAs (M.system machine) turns.now budget (total ran.schedule) (M.state ran.machine) ran.ending) }
{
    let mut machine = machine;
    let mut schedule = Items::new(alloc);
    match given_turns(alloc, &mut machine, turns, budget, &mut schedule)? {
        GivenEnd::Used { left } => {
            let ending = go_round(alloc, &mut machine, QUANTUM, left, &mut schedule)?;
            Ok(Ran {
                machine,
                schedule,
                ending,
            })
        }
        GivenEnd::Stopped => {
            let ending = ended(&machine);
            Ok(Ran {
                machine,
                schedule,
                ending,
            })
        }
        GivenEnd::BadTurn { index } => {
            let Ok(index) = u32::try_from(index) else {
                return Err(NoMemory);
            };
            Ok(Ran {
                machine,
                schedule,
                ending: Ending::BadTurn { index },
            })
        }
    }
}
