//! An example of a machine for the programs of `runs`: three threads that count, wait for one another, and break
//! down. Its tests run it by round robin and over given turns.
#![tactic(auto)]

mod task;
mod trio;

pub use task::{Task, Tasks};
pub use trio::Trio;

#[cfg(test)]
mod tests;
