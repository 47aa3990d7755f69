//! What came of an act.

ghost use Rattle.std.specs.Prelude.{◌≡◌};
ghost use Rattle.lz_proto.specs.Promises.{count_of};

/// What came of an act; only one that moved changes anything.
#[derive(Clone, Copy, Debug, PartialEq, Eq)]
pub enum Stepped {
    /// it was made
    Moved,
    /// the accessor awaits a closed latch
    Waits,
    /// the accessor doesn't stand where it can do this, or there is no such cell
    Wrong,
}

impl Stepped {
    /// 1 where it was made.
    pub(crate) fn count(self) -> u32
        ensures { result ≡ count_of self }
    {
        match self {
            Stepped::Moved => 1,
            Stepped::Waits | Stepped::Wrong => 0,
        }
    }
}
