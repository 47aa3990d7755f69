//! Runs that choose their turns by round robin.

ghost use Rattle.std.specs.Prelude.{◌≡◌, ◌-◌, ◌<◌, IfOk};
ghost use Rattle.runs.specs.Ends.{EndsAs};
ghost use Rattle.runs.specs.Planned.{Planned, RoundRobin, total};
ghost use Rattle.runs.specs.System.{reach};

use crate::NoMemory;
use crate::ran::Ran;
use crate::rounds::go_round;
use crate::threaded::Threaded;
use sqlite_items::Items;
use std::alloc::Global;

/// Runs a machine from its first state by round robin, for at most `budget` moves.
pub fn round_robin<M: Threaded + Drop>(
    alloc: Global,
    machine: M,
    quantum: u32,
    budget: u32,
) -> Result<Ran<M>, NoMemory>
    requires first { M.state machine ≡ (M.system machine).first }
    requires quantum { 0 < quantum }
    ensures system { IfOk result (λ ran. M.system ran.machine ≡ M.system machine) }
    ensures state { IfOk result (λ ran. M.state ran.machine ≡ (reach (M.system machine) ran.schedule).state) }
    ensures planned { IfOk result (λ ran. Planned (M.system machine) (RoundRobin quantum) budget ran.schedule) }
    ensures ending { IfOk result (λ ran.
        EndsAs (M.system machine) (budget - total ran.schedule) (M.state ran.machine) ran.ending) }
{
    let mut machine = machine;
    let mut schedule = Items::new(alloc);
    let ending = go_round(alloc, &mut machine, quantum, budget, &mut schedule)?;
    Ok(Ran {
        machine,
        schedule,
        ending,
    })
}
