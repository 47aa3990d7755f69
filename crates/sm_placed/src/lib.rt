//! Where the threads of a program stand: at nodes of its parts, with the operands that those nodes keep.
#![tactic(auto)]

mod laws;

pub use laws::standing;
