//! The table of a program's classes, from the tree of its file, or the first rule of typing that is broken there (SLS 5):
//! today names of templates and of their parents.
#![tactic(auto)]

mod above;
mod files;
mod known;
mod laws;
mod modifiers;
mod names;
mod naming;
mod parents;
mod stopped;
mod words;

pub use above::Above;
pub use files::object_file;
pub use known::{Known, Sort, is_case_class, is_class, is_object, is_reserved};
pub use laws::names_of_templates;
pub use modifiers::{ClassWords, class_words};
pub use names::Names;
pub use naming::{MOST_TEMPLATES, templates};
pub use parents::{parent_rows, template_of};
pub use stopped::Stopped;
pub use words::{is_word, word_type};
