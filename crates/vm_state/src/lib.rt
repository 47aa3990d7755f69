//! States of the machine for class files, and its step as a definition (JVMS 2.5, 2.6, 6).
#![tactic(auto)]

mod action;
mod action_rows;
mod actions;
mod contents;
mod entering;
mod frame;
mod going;
mod heap;
mod laws;
mod linkage;
mod operands;
mod outcomes;
mod pushes;
mod selecting;
mod seq;
mod stack;
mod target;
mod thread;
mod value;

pub use action::{Action, Comparison, Division, HeapAction, Invocation};
pub use actions::{ACTIONS, OpAction, action_of};
pub use contents::{default_value, field_at, same_texts, write_field};
pub use entering::{begin, enter};
pub use frame::Frame;
pub use going::{as_index, branch, go};
pub use heap::{Heap, Init, Object, State};
pub use laws::{ends, rows};
pub use linkage::{
    class_of, code_of, instr_at, instr_in, is_initialiser, is_of, is_result, method_of, ref_at,
};
pub use operands::Operands;
pub use outcomes::{Ability, Effect, HeapEffect, HeapMove, LocalStep, Readiness, StuckKind};
pub use pushes::{pop_off, push, replace_top, skip};
pub use selecting::{are_arguments, chosen_at, selection};
pub use seq::Seq;
pub use stack::Stack;
pub use target::Target;
pub use thread::Thread;
pub use value::{Value, kind_width};
