//! The outside of a program: named files and streams of bytes, with counts of faults.
#![tactic(auto)]

ghost use Rattle.std.specs.Prelude.{◌≡◌, ◌≤◌, OnOk, OnErr};
ghost use Rattle.sl_io.specs.Counts.{Rose};
ghost use Rattle.sl_io.specs.Gains.{Gains, GainsFront};
ghost use Rattle.sl_io.specs.SinkFault.{OnSinkFailed, OnSinkMemory};

mod fault_plan;
mod fetch;
mod mem_shelf;
mod mem_sink;
mod put;
mod shelf;
mod sink;
mod std_shelf;
mod std_sink;
#[cfg(test)]
mod tests;
mod whole_file;

pub use fetch::Fetch;
pub use mem_shelf::MemShelf;
pub use mem_sink::MemSink;
pub use put::Put;
pub use shelf::Shelf;
pub use sink::{Sink, SinkFault};
pub use std_shelf::StdShelf;
pub use std_sink::StdSink;

/// Writes the whole piece. `Failed` at the first fault of the sink, `Memory` where memory ran out; after either the sink
/// has taken some front of the piece.
pub fn write_all<S: Sink>(sink: &mut S, piece: &[u8]) -> Result<(), SinkFault>
    ensures whole { OnOk result (Gains (S.contents sink.old) piece.now (S.contents sink.new)) }
    ensures front { OnErr result (GainsFront (S.contents sink.old) piece.now (S.contents sink.new)) }
    ensures failed { OnSinkFailed result (Rose (S.faults sink.old) (S.faults sink.new)) }
    ensures counts { S.faults sink.old ≤ S.faults sink.new }
    // no fault was met where the piece was written, or memory ran out
    ensures quiet { OnOk result (S.faults sink.new ≡ S.faults sink.old) }
    ensures memory { OnSinkMemory result (S.faults sink.new ≡ S.faults sink.old) }
{
    let mut at = 0;
    while at < piece.len() {
        match sink.write(&piece[at..]) {
            Ok(0) => return Err(SinkFault::Failed),
            Ok(taken) => at += taken,
            Err(fault) => return Err(fault),
        }
    }
    Ok(())
}
