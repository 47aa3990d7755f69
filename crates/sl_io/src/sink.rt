ghost use Rattle.std.specs.Prelude.{◌≡◌, ◌≤◌, ◌<◌, ℕ, List, Option, length, take, IfOk, OnErr};
ghost use Rattle.sl_io.specs.Counts.{Rose};
ghost use Rattle.sl_io.specs.Gains.{Gains};
ghost use Rattle.sl_io.specs.SinkFault.{OnSinkFailed, OnSinkMemory};

use thiserror::Error;

/// Why a stream took no bytes.
#[derive(Clone, Copy, Debug, PartialEq, Eq, Error)]
pub enum SinkFault {
    /// The outside failed.
    #[error("the stream failed")]
    Failed,
    /// Memory ran out.
    #[error("no memory was left")]
    Memory,
}

/// A stream of bytes to the outside.
pub trait Sink {
    // The bytes that it holds, where it tells them.
    ghost contents: { Self → Option (List ℕ) };

    // The faults that were met.
    ghost faults: { Self → ℕ };

    /// Takes some leading bytes of `piece`, and answers how many.
    fn write(&mut self, piece: &[u8]) -> Result<usize, SinkFault>
        ensures bound { IfOk result (λ taken. taken ≤ length piece.now) }
        ensures gains { IfOk result (λ taken.
            Gains (contents self.old) (take taken piece.now) (contents self.new)) }
        ensures kept { OnErr result (contents self.new ≡ contents self.old) }
        ensures failed { OnSinkFailed result (Rose (faults self.old) (faults self.new)) }
        // it takes nothing of a piece with bytes only at a fault
        ensures stuck { IfOk result (λ taken. taken ≡ 0 → 0 < length piece.now →
            Rose (faults self.old) (faults self.new)) }
        ensures counts { faults self.old ≤ faults self.new }
        // no fault was met where it took a byte, or memory ran out
        ensures quiet { IfOk result (λ taken. 0 < taken → faults self.new ≡ faults self.old) }
        ensures memory { OnSinkMemory result (faults self.new ≡ faults self.old) };
}
