//! The classes of a linked set: that class files have one list of them at most (JVMS 5.3, 5.4).
#![tactic(auto)]

mod laws;

pub use laws::{one_list, one_set};
