//! The first stages of linking class files: names of classes, and a class given twice or missing (JVMS 4.4, 5.3).
#![tactic(auto)]

mod built_ins;
mod class_names;
mod file_names;
mod laws;
mod names;
mod pool;

pub use built_ins::built_in_names;
pub use class_names::first_missing;
pub use file_names::add_files;
pub use laws::read_files;
pub use names::Names;
pub use pool::{class_named, name_of, number_at, text_at};
