//! What a run leaves.

use crate::ending::Ending;
use crate::turn::Turn;
use sqlite_items::Items;

/// A machine that has run, the turns that it made, and why it stopped.
#[derive(Drop)]
pub struct Ran<M> {
    pub machine: M,
    pub schedule: Items<Turn>,
    pub ending: Ending,
}
