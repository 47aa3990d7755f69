//! Built-in methods of the machine (docs/CLASSFILES.md, "Linked sets"; docs/MACHINE.md, "Built-in methods").
#![tactic(auto)]

mod boxes;
mod dispatch;
mod exchanging;
mod field_names;
mod kinds;
mod latches;
mod names;
mod numbers;
mod objects;
mod results;
mod starting;
mod strings;
mod telling;
mod telling_throwables;
mod throwables;
mod writing;

pub use boxes::{box_boolean, box_int, box_long, unbox_boolean, unbox_int, unbox_long};
pub use dispatch::natively;
pub use exchanging::{Four, cas, top_four};
pub use field_names::field_named;
pub use kinds::kind_of;
pub use latches::{await_latch, count_down, latch, owned_here};
pub use names::class_text;
pub use numbers::decimal_text;
pub use objects::{object_equals, object_init};
pub use results::{give, give_one};
pub use starting::thread_start;
pub use strings::{concat, println, string_is_empty, string_length};
pub use telling::{object_to_string, text};
pub use telling_throwables::{message_in, throwable_to_string};
pub use throwables::{get_message, thread_init, throwable_init, throwable_init_text};
pub use writing::write;
