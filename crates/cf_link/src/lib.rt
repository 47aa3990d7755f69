//! Class files linked into one set (JVMS 5.3, 5.4).
#![tactic(auto)]

pub mod built_in;
mod classes;
mod descriptors;
mod fault;
mod laws;
mod linked;
mod linked_class;
mod member;
mod method_descriptors;
mod native;
mod parameters;
mod reference;
mod resolution;
mod selection;
mod table;
mod tables;
mod targets;
mod value_kind;

pub use classes::{
    chain_of, conforms, fields_of, is_abstract, is_in, is_interface, is_static, line_of, method_at,
    methods_of, slots_of, statics_of,
};
pub use descriptors::field_kind;
pub use fault::{LinkFault, LinkKind};
pub use laws::built_in_numbers;
pub use linked::Linked;
pub use linked_class::LinkedClass;
pub use member::{LinkedField, LinkedMethod, Slot};
pub use method_descriptors::method_kinds;
pub use native::Native;
pub use parameters::put_parameters;
pub use reference::LinkedRef;
pub use resolution::{resolved_field, resolved_method};
pub use selection::{chosen, selected};
pub use table::{Face, Table};
pub use tables::tables_of;
pub use targets::target;
pub use value_kind::ValueKind;
