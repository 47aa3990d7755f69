ghost use Rattle.std.specs.Prelude.{◌≡◌, ◌≤◌, ◌⊎◌, length, IfOk, IfErr};
ghost use Rattle.sl_top.specs.declared.outcome.Outcome.TheVariants.{Memory, NotBuilt};
ghost use Rattle.sl_top.specs.Printing.{Prints, IsNotBuilt};
ghost use Rattle.sl_top.specs.Trace.{trace_text};

use crate::NoMemory;
use crate::outcome::Outcome;
use crate::reading::{ReadFault, read};
use crate::running::{Traced, run};
use crate::source_file::SOURCE_LIMIT;
use std::alloc::Global;

// Reads a listing and runs it.
pub fn run_listing(alloc: Global, bytes: &[u8]) -> Result<Traced, Outcome>
    requires { length bytes.now ≤ SOURCE_LIMIT }
    ensures prints { IfOk result (λ ran. Prints bytes.now (trace_text ran.trace) ran.steps) }
    ensures cause { IfErr result (λ outcome. (outcome ≡ Memory) ⊎ ((outcome ≡ NotBuilt) × IsNotBuilt bytes.now)) }
{
    match read(alloc, bytes) {
        Err(ReadFault::NotBuilt) => Err(Outcome::NotBuilt),
        Err(ReadFault::Memory) => Err(Outcome::Memory),
        Ok(chains) => match run(alloc, chains.as_slice()) {
            Err(NoMemory) => Err(Outcome::Memory),
            Ok(ran) => Ok(ran),
        },
    }
}
