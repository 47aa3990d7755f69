//! Instructions that touch what threads share (JVMS 5.5, 6.5), and the steps of threads that they are.
#![tactic(auto)]

mod calls;
mod exceptions;
mod fields;
mod initialising;
mod leaving;
mod needing;
mod objects;
mod settling;
mod statics;
mod stepping;
mod texts;

pub use calls::{argument_fault, invokes, invokes_static, native_of, static_effect};
pub use fields::{fits_slot, get_field, has_field, put_field};
pub use initialising::readiness;
pub use needing::{Need, gets_static, makes, puts_static};
pub use statics::{fits_static, static_at};
pub use stepping::heap_step;
pub use texts::if_same_texts;
