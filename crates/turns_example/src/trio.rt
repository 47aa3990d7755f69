//! Three threads with their tasks.

ghost use Rattle.std.specs.Prelude.{◌≡◌};
ghost use Rattle.turns_example.specs.Tasks.{trio};

use crate::task::{Tasks, attempt};
use runs::{NextStep, NoMemory, Standing, Threaded};
use std::alloc::Global;

/// Three threads, their first tasks and those that are left.
#[derive(Drop)]
pub struct Trio {
    pub first: Tasks,
    pub now: Tasks,
}

/// The threads before any turn.
pub fn trio_of(tasks: Tasks) -> Trio
    ensures { result ≡ record { first = tasks; now = tasks } }
{
    Trio {
        first: tasks,
        now: tasks,
    }
}

impl Standing for Trio {
    ghost use Rattle.turns_example.specs.declared.task.Tasks.{Tasks};

    ghost Event = { Unit {0} };

    ghost Place = { Unit {0} };

    ghost State = { Tasks };

    ghost system = { λ machine. trio machine.first };

    ghost state = { λ machine. machine.now };

    fn threads(&self) -> u32 {
        3
    }

    fn what_next(&self, thread: u32) -> NextStep {
        let (can, _left) = attempt(self.now, thread);
        can
    }
}

impl Threaded for Trio {
    fn step(&mut self, _alloc: Global, thread: u32) -> Result<NextStep, NoMemory> {
        let (can, left) = attempt(self.now, thread);
        self.now = left;
        Ok(can)
    }
}
