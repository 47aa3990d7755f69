ghost use Rattle.std.specs.Prelude.{◌≡◌, ◌≤◌, ◌⊎◌, length, [], IfOk, IfErr};
ghost use Rattle.sl_io.specs.Files.{SameFiles};
ghost use Rattle.sl_top.specs.declared.outcome.Outcome.TheVariants.{Memory, NotBuilt};
ghost use Rattle.sl_top.specs.Outside.{shelf_over, sink_over};
ghost use Rattle.sl_top.specs.Printing.{Prints, IsNotBuilt, one_turn};
ghost use Rattle.sl_top.specs.Run.{EndsRun, EndsPrinting};
ghost use Rattle.sl_top.specs.Trace.{trace_text};

use crate::NoMemory;
use crate::listing_run::run_listing;
use crate::outcome::Outcome;
use crate::running::Traced;
use crate::source_file::{SOURCE_LIMIT, source};
use crate::trace::write_trace;
use sl_io::{Shelf, Sink, SinkFault};
use sqlite_items::Items;
use std::alloc::Global;
use ty_prog::{Name, Turn};

/// How a call comes out, and the schedule of its run, if there was one.
#[derive(Debug, Drop)]
pub struct Scheduled {
    pub outcome: Outcome,
    pub schedule: Items<Turn>,
}

impl Scheduled {
    /// An end without a run.
    pub fn unrun(alloc: Global, outcome: Outcome) -> Scheduled
        ensures outcome { result.outcome ≡ outcome }
        ensures unrun { result.schedule ≡ [] }
    {
        Scheduled {
            outcome,
            schedule: Items::new(alloc),
        }
    }
}

/// Runs the file of a name. After want of memory the schedule is that of the run, if it was over by then.
pub fn run_file<F: Shelf, O: Sink>(
    alloc: Global,
    name: &Name,
    shelf: &mut F,
    out: &mut O,
) -> Scheduled
    ensures files { SameFiles (F.file shelf.old) (F.file shelf.new) }
    ensures ends { EndsRun result.outcome name.now (shelf_over F.tells F.file F.faults shelf.old shelf.new)
        (sink_over O.contents O.faults out.old out.new) result.schedule }
{
    match source(alloc, name, shelf) {
        Err(outcome) => Scheduled::unrun(alloc, outcome),
        Ok(bytes) => match run_scheduled(alloc, bytes.as_slice()) {
            Err(outcome) => Scheduled::unrun(alloc, outcome),
            Ok((ran, schedule)) => Scheduled {
                outcome: printed(alloc, out, &ran),
                schedule,
            },
        },
    }
}

// Runs a listing, and lists its turns.
fn run_scheduled(alloc: Global, bytes: &[u8]) -> Result<(Traced, Items<Turn>), Outcome>
    requires { length bytes.now ≤ SOURCE_LIMIT }
    ensures prints { IfOk result (λ run. Prints bytes.now (trace_text run.0.trace) run.0.steps) }
    ensures turns { IfOk result (λ run. run.1 ≡ one_turn run.0.steps) }
    ensures cause { IfErr result (λ outcome. (outcome ≡ Memory) ⊎ ((outcome ≡ NotBuilt) × IsNotBuilt bytes.now)) }
{
    let ran = run_listing(alloc, bytes)?;
    match one_turn(alloc, ran.steps) {
        Err(NoMemory) => Err(Outcome::Memory),
        Ok(schedule) => Ok((ran, schedule)),
    }
}

// Prints what a run left, and says how that came out.
fn printed<O: Sink>(alloc: Global, out: &mut O, ran: &Traced) -> Outcome
    ensures { EndsPrinting result (sink_over O.contents O.faults out.old out.new) (trace_text ran.now.trace) }
{
    match write_trace(alloc, out, ran.trace.as_slice()) {
        Ok(()) => Outcome::Printed,
        Err(SinkFault::Failed) => Outcome::OutFault,
        Err(SinkFault::Memory) => Outcome::Memory,
    }
}

// One turn of thread 1.
fn one_turn(alloc: Global, steps: u32) -> Result<Items<Turn>, NoMemory>
    ensures { IfOk result (λ schedule. schedule ≡ one_turn steps) }
{
    let mut schedule = Items::new(alloc);
    schedule.push(Turn {
        thread: 1,
        count: steps,
    })?;
    Ok(schedule)
}
