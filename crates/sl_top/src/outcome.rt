ghost use Rattle.std.specs.Prelude.{◌≡◌, ◌++◌, OnOk, OnErr};
ghost use Rattle.sl_io.specs.Counts.{Rose};
ghost use Rattle.sl_io.specs.Gains.{Gains, GainsFront};
ghost use Rattle.sl_io.specs.SinkFault.{OnSinkFailed, OnSinkMemory};
ghost use Rattle.sl_top.specs.Outcome.{status_of, line_of, HasLine};

use crate::refusals::write_refusal;
use sl_io::{Sink, SinkFault, write_all};
use sl_source::Refusal;

/// How a call comes out, before its line on `err` is written.
#[derive(Clone, Copy, Debug, PartialEq, Eq)]
pub enum Outcome {
    Printed,
    NotBuilt,
    Refused(Refusal),
    ShelfFault,
    OutFault,
    Usage,
    Memory,
    Missing,
    Long,
}

impl Outcome {
    /// The status with which the call answers.
    pub fn status(self) -> u8
        ensures { result ≡ status_of self }
    {
        match self {
            Outcome::Printed => 0,
            Outcome::NotBuilt | Outcome::Refused(_) => 4,
            Outcome::ShelfFault | Outcome::OutFault => 5,
            Outcome::Usage => 6,
            Outcome::Memory => 7,
            Outcome::Missing | Outcome::Long => 8,
        }
    }

    /// Writes the line of the outcome, where it has one; `name` is the file's.
    pub fn write<E: Sink>(self, err: &mut E, name: &str) -> Result<(), SinkFault>
        ensures whole { OnOk result (Gains (E.contents err.old) (line_of self name.now) (E.contents err.new)) }
        ensures front { OnErr result (GainsFront (E.contents err.old) (line_of self name.now) (E.contents err.new)) }
        ensures failed { OnSinkFailed result (Rose (E.faults err.old) (E.faults err.new)) }
        ensures quiet { OnOk result (E.faults err.new ≡ E.faults err.old) }
        ensures memory { OnSinkMemory result (E.faults err.new ≡ E.faults err.old) }
        // nothing fails where nothing is written
        ensures line { OnErr result (HasLine self) }
    {
        match self {
            Outcome::Printed | Outcome::OutFault => Ok(()),
            Outcome::NotBuilt => write_parts(err, b"", name.as_bytes(), b": not built\n"),
            Outcome::Refused(refusal) => write_refusal(err, name.as_bytes(), refusal),
            Outcome::ShelfFault => write_parts(err, b"fault: ", name.as_bytes(), b"\n"),
            Outcome::Usage => write_all(err, b"usage: scalazy COMMAND FILE [OPTIONS]\n"),
            Outcome::Memory => write_all(err, b"memory\n"),
            Outcome::Missing => write_parts(err, b"missing: ", name.as_bytes(), b"\n"),
            Outcome::Long => write_parts(err, b"long: ", name.as_bytes(), b"\n"),
        }
    }
}

/// Writes three pieces, one after another.
pub fn write_parts<E: Sink>(
    err: &mut E,
    before: &[u8],
    name: &[u8],
    after: &[u8],
) -> Result<(), SinkFault>
    ensures whole { OnOk result
        (Gains (E.contents err.old) (before.now ++ (name.now ++ after.now)) (E.contents err.new)) }
    ensures front { OnErr result
        (GainsFront (E.contents err.old) (before.now ++ (name.now ++ after.now)) (E.contents err.new)) }
    ensures failed { OnSinkFailed result (Rose (E.faults err.old) (E.faults err.new)) }
    ensures quiet { OnOk result (E.faults err.new ≡ E.faults err.old) }
    ensures memory { OnSinkMemory result (E.faults err.new ≡ E.faults err.old) }
{
    write_all(err, before)?;
    write_all(err, name)?;
    write_all(err, after)
}
