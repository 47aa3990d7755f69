//! Fields and methods of a linked class.

use crate::native::Native;
use crate::value_kind::ValueKind;
use cf_form::Code;
use sl_base::Name;
use sqlite_items::Items;

/// A field, with the kind of its descriptor (JVMS 4.3.2).
#[derive(Debug, Drop)]
pub struct LinkedField {
    pub name: Name,
    pub descriptor: Name,
    pub kind: ValueKind,
}

/// A field of an object: the class that declares it, and the kind of its descriptor.
#[derive(Clone, Copy, Debug, PartialEq, Eq)]
pub struct Slot {
    pub class: u32,
    pub kind: ValueKind,
}

/// A method, with the kinds of its descriptor's parameters and result (JVMS 4.3.3); no result for V. A method of a
/// built-in class has no code, and is `native` unless it is abstract.
#[derive(Debug, Drop)]
pub struct LinkedMethod {
    pub name: Name,
    pub descriptor: Name,
    pub access: u16,
    pub parameters: Items<ValueKind>,
    pub result: Option<ValueKind>,
    pub code: Option<Code>,
    pub native: Option<Native>,
}
