//! What a thread shows to the outside.

use sl_base::Name;

/// A printed line, or the exception that ended a thread. Threads are counted from 1.
#[derive(Debug, Drop)]
pub enum Event {
    Line {
        thread: u32,
        text: Name,
    },
    Uncaught {
        thread: u32,
        class: Name,
        message: Option<Name>,
    },
}
