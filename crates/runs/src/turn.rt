//! One entry of a schedule.

/// The thread, counted from 1, takes `count` steps or moves in a row.
#[derive(Clone, Copy, Debug, PartialEq, Eq)]
pub struct Turn {
    pub thread: u32,
    pub count: u32,
}
