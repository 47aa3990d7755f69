//! Waits.

use sl_base::Name;

/// A thread that waits for another, and the lazy member or object at which it does. Threads are counted from 1.
#[derive(Debug, Drop)]
pub struct Wait {
    pub thread: u32,
    pub on: u32,
    pub at: Name,
}
