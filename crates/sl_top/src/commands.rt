//! One command after another.

ghost use Rattle.sl_top.specs.Check.{Checks};
ghost use Rattle.sl_top.specs.Commands.{CarriesOut};
ghost use Rattle.sl_top.specs.Outside.{SinkSeen, IsUntouched, shelf_over, sink_over};
ghost use Rattle.sl_top.specs.Run.{Runs};

use crate::checking::check_file;
use crate::file_run::{Scheduled, run_file};
use crate::finished::{Finished, told};
use crate::request::Request;
use sl_io::{Shelf, Sink};
use sl_source::sources;
use std::alloc::Global;
use ty_prog::Name;

/// Carries out a request: each command has a function of its own.
pub fn carry_out<F: Shelf, O: Sink, E: Sink>(
    alloc: Global,
    request: Request,
    shelf: &mut F,
    out: &mut O,
    err: &mut E,
) -> Finished
    ensures { CarriesOut request
        (shelf_over F.tells F.file F.faults shelf.old shelf.new)
        (sink_over O.contents O.faults out.old out.new)
        (sink_over E.contents E.faults err.old err.new) result }
{
    match request {
        Request::Check { file } => check(alloc, &file, shelf, err),
        Request::Run {
            file,
            options: _options,
        } => run(alloc, &file, shelf, out, err),
    }
}

// `check FILE`, which prints nothing.
fn check<F: Shelf, E: Sink>(alloc: Global, file: &Name, shelf: &mut F, err: &mut E) -> Finished
    ensures { (out : SinkSeen) → IsUntouched out → Checks file.now
        (shelf_over F.tells F.file F.faults shelf.old shelf.new) out
        (sink_over E.contents E.faults err.old err.new) result }
{
    sources();
    let outcome = check_file(alloc, file, shelf);
    told(alloc, err, file.as_str(), Scheduled::unrun(alloc, outcome))
}

// `run FILE`.
fn run<F: Shelf, O: Sink, E: Sink>(
    alloc: Global,
    file: &Name,
    shelf: &mut F,
    out: &mut O,
    err: &mut E,
) -> Finished
    ensures { Runs file.now
        (shelf_over F.tells F.file F.faults shelf.old shelf.new)
        (sink_over O.contents O.faults out.old out.new)
        (sink_over E.contents E.faults err.old err.new) result }
{
    let scheduled = run_file(alloc, file, shelf, out);
    told(alloc, err, file.as_str(), scheduled)
}
