//! The rules of the source meaning: what a thread is about to do, as data, and what that does to the heap.
#![tactic(auto)]

mod act;
mod answer;
mod moves;

pub use act::{Act, Args};
pub use answer::{Answer, Edit};
pub use moves::Move;
