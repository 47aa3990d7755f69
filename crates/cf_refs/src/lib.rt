//! What the entries of pools of class files resolve to, the texts of a linked set, and the method at which a program starts
//! (JVMS 5.1, 5.2, 5.4.3).
#![tactic(auto)]

mod entries;
mod laws;
mod starting;
mod texts;

pub use entries::resolved;
pub use laws::{entries_resolve, main_starts};
pub use starting::main_method;
pub use texts::texts_of;
