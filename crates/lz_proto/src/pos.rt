//! Where an accessor stands.

ghost use Rattle.std.specs.Prelude.{◌≡◌};
ghost use Rattle.lz_proto.specs.Steps.{has_ended};

/// The next step of an accessor. The first number is its cell, but that of `Open` is its latch and that of `Got` its value.
#[derive(Clone, Copy, Debug, PartialEq, Eq)]
pub enum Pos {
    /// it hasn't begun
    Idle,
    /// it reads the field
    Look(u32),
    /// it exchanges null for `Evaluating`
    Claim(u32),
    /// it runs the initialiser
    Body(u32),
    /// it exchanges `Evaluating` for the result: a value, or none after an exception
    Store(u32, Option<u64>),
    /// it reads the latch in the field
    Take(u32, Option<u64>),
    /// it exchanges the latch for the result
    Swap(u32, Option<u64>, u32),
    /// it opens the latch
    Open(u32, Option<u64>),
    /// it makes a latch that names this thread, which runs the initialiser
    Mark(u32, u32),
    /// it exchanges `Evaluating` for the latch
    Install(u32, u32),
    /// it awaits the latch
    Sleep(u32, u32),
    /// it returned the value
    Got(u64),
    /// it threw what its initialiser threw
    Failed,
    /// it threw LazyCycle
    Cycle,
}

impl Pos {
    /// Whether it has ended, or hasn't begun.
    pub fn has_ended(self) -> bool
        ensures { result ≡ has_ended self }
    {
        matches!(self, Pos::Idle | Pos::Got(_) | Pos::Failed | Pos::Cycle)
    }
}
