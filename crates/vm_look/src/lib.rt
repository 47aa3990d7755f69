//! What the next step of a thread comes to, told without making it (JVMS 6.5).
#![tactic(auto)]

mod arithmetic;
mod calls;
mod classes;
mod ends;
mod instructions;
mod jumps;
mod locals;
mod moves;
mod pushes;

pub use instructions::effect_of;
