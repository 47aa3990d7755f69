//! States of the source meaning: objects, cells, modules and latches, and the threads that share them.
#![tactic(auto)]

mod entry;
mod heap;
mod layout;
mod module;
mod once;
mod part;
mod sequence;
mod spot;
mod stack;
mod starting;
mod state;
mod thread;
mod value;

pub use entry::{Body, Entry, begin, body_of, enter, method_at};
pub use heap::{Heap, Object};
pub use layout::{cell_number, default_of, field_number, linear_of, made};
pub use module::Module;
pub use once::Once;
pub use part::Part;
pub use sequence::Sequence;
pub use sl_base::NoMemory;
pub use spot::Spot;
pub use stack::Stack;
pub use starting::start;
pub use state::State;
pub use thread::{Context, Level, Thread};
pub use value::Value;

#[cfg(test)]
mod tests;
