ghost use Rattle.std.specs.Prelude.{◌≡◌, []};
ghost use Rattle.sl_top.specs.Outcome.{Told, schedule_at};
ghost use Rattle.sl_top.specs.Outside.{sink_over};

use crate::file_run::Scheduled;
use sl_io::{Sink, SinkFault};
use sqlite_items::Items;
use std::alloc::Global;
use ty_prog::{Name, Turn};

/// What a call answers.
#[derive(Debug, Drop)]
pub struct Finished {
    /// The exit status.
    pub status: u8,
    /// The effective turns of the run, if there was one.
    pub schedule: Items<Turn>,
    /// The class files that were made and run, each with the name of its class.
    pub files: Items<(Name, Items<u8>)>,
}

/// Writes the line of an outcome, and answers with its status.
pub fn told<E: Sink>(alloc: Global, err: &mut E, name: &str, scheduled: Scheduled) -> Finished
    ensures told { Told scheduled.outcome name.now (sink_over E.contents E.faults err.old err.new) result.status }
    ensures schedule { result.schedule ≡ schedule_at result.status scheduled.schedule }
    ensures files { result.files ≡ [] }
{
    let Scheduled { outcome, schedule } = scheduled;
    let status = match outcome.write(err, name) {
        Ok(()) => outcome.status(),
        Err(SinkFault::Failed) => 5,
        Err(SinkFault::Memory) => 7,
    };
    Finished {
        status,
        schedule: if status == 7 {
            Items::new(alloc)
        } else {
            schedule
        },
        files: Items::new(alloc),
    }
}
