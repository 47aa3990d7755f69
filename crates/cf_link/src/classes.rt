//! The classes of a linked set by their numbers.

ghost use Rattle.std.specs.Prelude.{◌≡◌, ◌==◌, bit_and, not, option_copied};
ghost use Rattle.ty_linear.specs.Linear.{is_in};
ghost use Rattle.cf_link.specs.Classes.{number, is_static, is_abstract, is_interface_access, is_interface, chain_of, line_of, methods_of, fields_of, statics_of, slots_of, method_at, conforms};

use crate::linked_class::LinkedClass;
use crate::member::{LinkedField, LinkedMethod, Slot};
use sqlite_items::at;

/// A number of 32 bits.
pub(crate) fn number(i: usize) -> Option<u32>
    ensures { result ≡ number i }
{
    if i < 1 << 32 { Some(i as u32) } else { None }
}

/// Whether ACC_STATIC is set (JVMS 4.5, 4.6).
pub fn is_static(access: u16) -> bool
    ensures { result ≡ is_static access }
{
    access & 0x0008 != 0
}

/// Whether ACC_ABSTRACT is set (JVMS 4.6).
pub fn is_abstract(access: u16) -> bool
    ensures { result ≡ is_abstract access }
{
    access & 0x0400 != 0
}

/// Whether a class is an interface (JVMS 4.1).
pub fn is_interface(classes: &[LinkedClass], class: u32) -> bool
    ensures { result ≡ is_interface classes.now class }
{
    match at(classes, class as usize) {
        Some(c) => is_interface_access(c.access),
        None => false,
    }
}

// Whether ACC_INTERFACE is set.
fn is_interface_access(access: u16) -> bool
    ensures { result ≡ is_interface_access access }
{
    access & 0x0200 != 0
}

/// A class, its superclass, and so on.
pub fn chain_of(classes: &[LinkedClass], class: u32) -> &[u32]
    ensures { result.now ≡ chain_of classes.now class }
{
    match at(classes, class as usize) {
        Some(c) => c.chain.as_slice(),
        None => &[],
    }
}

/// A class and all that is above it.
pub fn line_of(classes: &[LinkedClass], class: u32) -> &[u32]
    ensures { result.now ≡ line_of classes.now class }
{
    match at(classes, class as usize) {
        Some(c) => c.line.as_slice(),
        None => &[],
    }
}

/// The methods that a class declares.
pub fn methods_of(classes: &[LinkedClass], class: u32) -> &[LinkedMethod]
    ensures { result.now ≡ methods_of classes.now class }
{
    match at(classes, class as usize) {
        Some(c) => c.methods.as_slice(),
        None => &[],
    }
}

/// The instance fields that a class declares.
pub fn fields_of(classes: &[LinkedClass], class: u32) -> &[LinkedField]
    ensures { result.now ≡ fields_of classes.now class }
{
    match at(classes, class as usize) {
        Some(c) => c.fields.as_slice(),
        None => &[],
    }
}

/// The static fields that a class declares.
pub fn statics_of(classes: &[LinkedClass], class: u32) -> &[LinkedField]
    ensures { result.now ≡ statics_of classes.now class }
{
    match at(classes, class as usize) {
        Some(c) => c.statics.as_slice(),
        None => &[],
    }
}

/// The fields of the objects of a class.
pub fn slots_of(classes: &[LinkedClass], class: u32) -> &[Slot]
    ensures { result.now ≡ slots_of classes.now class }
{
    match at(classes, class as usize) {
        Some(c) => c.slots.as_slice(),
        None => &[],
    }
}

/// The method of a class with this number.
pub fn method_at(classes: &[LinkedClass], class: u32, number: u32) -> Option<&LinkedMethod>
    ensures { option_copied result ≡ method_at classes.now class number }
{
    at(methods_of(classes, class), number as usize)
}

/// Whether a list has a number.
pub fn is_in(list: &[u32], number: u32) -> bool
    ensures { result ≡ is_in list.now number }
{
    list.iter().any(|other| number == *other)
}

/// Whether the objects of the first class are objects of the second too (JVMS 5.5).
pub fn conforms(classes: &[LinkedClass], class: u32, of: u32) -> bool
    ensures { result ≡ conforms classes.now class of }
{
    if is_interface(classes, of) {
        is_in(line_of(classes, class), of)
    } else {
        is_in(chain_of(classes, class), of)
    }
}
