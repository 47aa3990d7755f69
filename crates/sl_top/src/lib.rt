//! The program without its edge: what the words of a command line ask for is done over any shelf and any sinks.
#![tactic(auto)]

ghost use Rattle.std.specs.Prelude.{ℕ, List};
ghost use Rattle.sl_top.specs.Outside.{shelf_over, sink_over};
ghost use Rattle.sl_top.specs.Request.{AsksToCheck, AsksToRun, AsksNothing};
ghost use Rattle.sl_top.specs.Check.{Checks};
ghost use Rattle.sl_top.specs.Run.{Runs};
ghost use Rattle.sl_top.specs.Usage.{IsUsage};

mod chain;
mod checking;
mod code;
mod commands;
mod compiling;
mod file_run;
mod finished;
mod listing_run;
mod machine;
mod number_text;
mod operands;
mod operator;
mod outcome;
mod reading;
mod refusals;
mod request;
mod running;
mod source_file;
mod trace;

use commands::carry_out;
use file_run::Scheduled;
pub use finished::Finished;
use finished::told;
use outcome::Outcome;
pub use request::{Options, Request, asking, request_of};
pub use running::value_is_one;
pub use sl_base::NoMemory;
use sl_io::{Shelf, Sink};
pub use source_file::SOURCE_LIMIT;
use std::alloc::Global;
use ty_prog::Name;

/// Carries out the words of a command line, which are those behind the program's name: the files lie on
/// `shelf`, what is printed goes to `out`, and what is told of the call to `err`. Each command has a clause.
pub fn top<F: Shelf, O: Sink, E: Sink>(
    alloc: Global,
    words: &[Name],
    shelf: &mut F,
    out: &mut O,
    err: &mut E,
) -> Finished
    ensures check { (name : List ℕ) → AsksToCheck words.now name → Checks name
        (shelf_over F.tells F.file F.faults shelf.old shelf.new)
        (sink_over O.contents O.faults out.old out.new)
        (sink_over E.contents E.faults err.old err.new) result }
    ensures run { (name : List ℕ) → AsksToRun words.now name → Runs name
        (shelf_over F.tells F.file F.faults shelf.old shelf.new)
        (sink_over O.contents O.faults out.old out.new)
        (sink_over E.contents E.faults err.old err.new) result }
    ensures usage { AsksNothing words.now → IsUsage
        (shelf_over F.tells F.file F.faults shelf.old shelf.new)
        (sink_over O.contents O.faults out.old out.new)
        (sink_over E.contents E.faults err.old err.new) result }
{
    match request_of(alloc, words) {
        Err(NoMemory) => told(alloc, err, "", Scheduled::unrun(alloc, Outcome::Memory)),
        Ok(None) => told(alloc, err, "", Scheduled::unrun(alloc, Outcome::Usage)),
        Ok(Some(request)) => carry_out(alloc, request, shelf, out, err),
    }
}
