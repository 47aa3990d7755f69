//! Linked classes.

use crate::member::{LinkedField, LinkedMethod, Slot};
use sl_base::Name;
use sqlite_items::Items;

/// A class or interface of a linked set. Classes are named by their numbers, members by numbers in these lists.
#[derive(Debug, Drop)]
pub struct LinkedClass {
    pub name: Name,
    pub access: u16,
    /// The superclass; None for `java/lang/Object` alone.
    pub parent: Option<u32>,
    /// The direct superinterfaces, in their order.
    pub interfaces: Items<u32>,
    /// The class, its superclass, the superclass of that, and so on.
    pub chain: Items<u32>,
    /// The linearisation: the class and all classes and interfaces above it, each before those that are above it.
    pub line: Items<u32>,
    /// The class's own instance fields, in their order.
    pub fields: Items<LinkedField>,
    /// The class's own static fields, in their order.
    pub statics: Items<LinkedField>,
    /// The class's own methods, in their order.
    pub methods: Items<LinkedMethod>,
    /// The fields of an object: those of the superclass, then the class's own.
    pub slots: Items<Slot>,
    /// The number of the method `<clinit>()V`.
    pub initialiser: Option<u32>,
}
