//! How runs end.

/// Why a run stopped. Threads count from 1, given turns from 0.
#[derive(Clone, Copy, Debug, PartialEq, Eq)]
pub enum Ending {
    /// Every thread has ended.
    Finished,
    /// No thread can move, and one waits.
    Deadlock,
    /// The moves of the run have reached the budget, and some thread can move.
    Budget,
    /// The least thread that stands at a stuck step.
    Stuck { thread: u32 },
    /// The given turn with this index names a thread that isn't there.
    BadTurn { index: u32 },
}
