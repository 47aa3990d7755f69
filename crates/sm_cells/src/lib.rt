//! Who runs the initialisers of cells.
#![tactic(auto)]

mod laws;

pub use laws::running;
