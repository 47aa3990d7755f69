//! What all crates share: names, and want of memory.
#![tactic(auto)]

mod name;
mod no_memory;

pub use name::Name;
pub use no_memory::NoMemory;

#[cfg(test)]
mod tests;
