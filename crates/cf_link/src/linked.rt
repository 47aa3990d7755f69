//! Linked sets.

ghost use Rattle.cf_link.specs.Linked.{IsLinked};

use crate::linked_class::LinkedClass;
use crate::reference::LinkedRef;
use crate::table::Table;
use sl_base::Name;
use sqlite_items::Items;

/// A linked set of classes: the built-in ones, then those of the files in their order.
#[derive(Debug, Drop)]
pub struct Linked {
    pub classes: Items<LinkedClass>,
    /// For each class, the methods that are selected in it.
    pub tables: Items<Table>,
    /// For each class, what the entries of its pool resolve to; index 1 of the pool is number 0. A built-in class has none.
    pub refs: Items<Items<LinkedRef>>,
    /// The texts that String entries name, each once.
    pub texts: Items<Name>,
    /// The class and number of `Main.main`.
    pub main: (u32, u32),
    pub ghost linked: { ∥ IsLinked classes tables refs texts main ∥₁ },
}
