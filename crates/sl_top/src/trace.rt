ghost use Rattle.std.specs.Prelude.{◌≡◌, IfOk, OnOk, OnErr};
ghost use Rattle.sl_io.specs.Counts.{Rose};
ghost use Rattle.sl_io.specs.Gains.{Gains, GainsFront};
ghost use Rattle.sl_io.specs.SinkFault.{OnSinkFailed, OnSinkMemory};
ghost use Rattle.sl_top.specs.Trace.{event_text, trace_text};

use crate::NoMemory;
use itoa::Buffer;
use sl_io::{Sink, SinkFault, write_all};
use std::alloc::Global;
use ty_prog::Event;

/// Writes the text of each event, one piece an event.
pub fn write_trace<O: Sink>(alloc: Global, out: &mut O, trace: &[Event]) -> Result<(), SinkFault>
    ensures whole { OnOk result (Gains (O.contents out.old) (trace_text trace.now) (O.contents out.new)) }
    ensures front { OnErr result (GainsFront (O.contents out.old) (trace_text trace.now) (O.contents out.new)) }
    ensures failed { OnSinkFailed result (Rose (O.faults out.old) (O.faults out.new)) }
    ensures quiet { OnOk result (O.faults out.new ≡ O.faults out.old) }
    ensures memory { OnSinkMemory result (O.faults out.new ≡ O.faults out.old) }
{
    for event in trace {
        write_event(alloc, out, event)?;
    }
    Ok(())
}

// Writes the text of one event in one piece.
fn write_event<O: Sink>(alloc: Global, out: &mut O, event: &Event) -> Result<(), SinkFault>
    ensures whole { OnOk result (Gains (O.contents out.old) (event_text event.now) (O.contents out.new)) }
    ensures front { OnErr result (GainsFront (O.contents out.old) (event_text event.now) (O.contents out.new)) }
    ensures failed { OnSinkFailed result (Rose (O.faults out.old) (O.faults out.new)) }
    ensures quiet { OnOk result (O.faults out.new ≡ O.faults out.old) }
    ensures memory { OnSinkMemory result (O.faults out.new ≡ O.faults out.old) }
{
    match text_of(alloc, event) {
        Ok(text) => write_all(out, text.as_slice()),
        Err(NoMemory) => Err(SinkFault::Memory),
    }
}

// The text of one event, with its LF.
fn text_of(alloc: Global, event: &Event) -> Result<Vec<u8>, NoMemory>
    ensures { IfOk result (λ text. text.items ≡ event_text event.now) }
{
    let mut text = Vec::new(alloc);
    match event {
        Event::Line {
            thread: _,
            text: line,
        } => {
            text.extend_from_slice(line.as_str().as_bytes())?;
        }
        Event::Uncaught {
            thread,
            class,
            message,
        } => {
            text.extend_from_slice(b"uncaught in thread ")?;
            text.extend_from_slice(Buffer::new().format(*thread).as_bytes())?;
            text.extend_from_slice(b": ")?;
            text.extend_from_slice(class.as_str().as_bytes())?;
            if let Some(message) = message {
                text.extend_from_slice(b": ")?;
                text.extend_from_slice(message.as_str().as_bytes())?;
            }
        }
    }
    text.push(b'\n')?;
    Ok(text)
}
