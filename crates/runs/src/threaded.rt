//! Machines that run a system of threads.

ghost use Rattle.std.specs.Prelude.{◌≡◌, IfOk, OnErr};
ghost use Rattle.runs.specs.Made.{Made};
ghost use Rattle.runs.specs.Trying.{able, after};

use crate::NoMemory;
use crate::next_step::NextStep;
use crate::standing::Standing;
use std::alloc::Global;

/// A machine that stands in a state of a system of threads, and moves on.
pub trait Threaded: Standing {
    /// One try of a thread, and what it could do. Without memory nothing changes.
    fn step(&mut self, alloc: Global, thread: u32) -> Result<NextStep, NoMemory>
        ensures system { Self.system self.new ≡ Self.system self.old }
        ensures answer { IfOk result (λ can. can ≡ able ((Self.system self.old).next (Self.state self.old) thread)) }
        ensures state { IfOk result (λ _.
            Self.state self.new ≡ after (Self.state self.old) ((Self.system self.old).next (Self.state self.old) thread)) }
        ensures memory { OnErr result (Self.state self.new ≡ Self.state self.old) };

    /// Up to `count` moves of a thread, which stop at the first try that makes none; how many it made. A machine
    /// may have a faster body.
    fn moves(&mut self, alloc: Global, thread: u32, count: u32) -> Result<u32, NoMemory>
        ensures system { Self.system self.new ≡ Self.system self.old }
        ensures made { IfOk result (λ made.
            Made (Self.system self.old) thread count (Self.state self.old) made (Self.state self.new)) }
    {
        for made in 0..count {
            match self.step(alloc, thread)? {
                NextStep::Moves => {}
                _ => return Ok(made),
            }
        }
        Ok(count)
    }
}
