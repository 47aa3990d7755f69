ghost use Rattle.std.specs.Prelude.{◌≡◌, ◌≤◌, ◌<◌, length, None, IfOk};
ghost use Rattle.std.specs.Io.{WritesAtMost};
ghost use Rattle.std.specs.Io.KnownBytes.{WriteAppends};
ghost use Rattle.sl_io.specs.Counts.{Rose};
ghost use Rattle.sl_io.specs.SinkFault.{OnSinkFailed, OnSinkMemory};

use crate::{Sink, SinkFault};
use std::io::{self, ErrorKind, Write};

/// A stream of the system. It counts its errors, but for want of memory.
#[derive(Drop)]
pub struct StdSink<W> {
    to: W,
    faults: u64,
}

impl<W: Write + Drop> StdSink<W> {
    /// A sink that writes to this stream.
    pub fn new(to: W) -> StdSink<W>
        ensures stream { result.to ≡ to }
        ensures contents { ⟦<StdSink<W> as Sink>⟧.contents result ≡ None }
        ensures faults { ⟦<StdSink<W> as Sink>⟧.faults result ≡ 0 }
    {
        StdSink { to, faults: 0 }
    }

    /// The stream itself.
    pub fn into_inner(self) -> W
        ensures { result ≡ self.to }
    {
        let StdSink { to, faults: _ } = self;
        to
    }
}

// One write, tried again where a signal interrupts it.
fn write_again<W: Write>(to: &mut W, piece: &[u8]) -> io::Result<usize>
    ensures bound { WritesAtMost result piece.now }
    ensures bytes { WriteAppends (W.contents to.old) (W.contents to.new) result piece.now }
{
    for _ in 0..u64::MAX {
        match to.write(piece) {
            Ok(count) => return Ok(count),
            Err(error) if error.kind() == ErrorKind::Interrupted => {}
            Err(error) => return Err(error),
        }
    }
    Err(io::Error::from(ErrorKind::Interrupted))
}

impl<W: Write + Drop> Sink for StdSink<W> {
    ghost use Rattle.std.specs.Prelude.{None};

    ghost contents = { λ _. None };

    ghost faults = { λ s. s.faults };

    fn write(&mut self, piece: &[u8]) -> Result<usize, SinkFault>
        ensures bound { IfOk result (λ taken. taken ≤ length piece.now) }
        ensures failed { OnSinkFailed result (Rose self.old.faults self.new.faults) }
        ensures stuck { IfOk result (λ taken. taken ≡ 0 → 0 < length piece.now →
            Rose self.old.faults self.new.faults) }
        ensures counts { self.old.faults ≤ self.new.faults }
        ensures quiet { IfOk result (λ taken. 0 < taken → self.new.faults ≡ self.old.faults) }
        ensures memory { OnSinkMemory result (self.new.faults ≡ self.old.faults) }
        // what a stream that tells its bytes was given
        ensures stream { WriteAppends (W.contents self.old.to) (W.contents self.new.to) result piece.now }
    {
        match write_again(&mut self.to, piece) {
            Ok(taken) => {
                if taken == 0 && !piece.is_empty() {
                    self.faults = self.faults.saturating_add(1);
                }
                Ok(taken)
            }
            Err(error) if error.kind() == ErrorKind::OutOfMemory => Err(SinkFault::Memory),
            Err(_) => {
                self.faults = self.faults.saturating_add(1);
                Err(SinkFault::Failed)
            }
        }
    }
}
