//! What a thread does next.

/// What a thread does where it is tried: it makes a move, waits, has ended, or stands at a stuck step.
#[derive(Clone, Copy, Debug, PartialEq, Eq)]
pub enum NextStep {
    Moves,
    Waits,
    Ended,
    Stuck,
}
