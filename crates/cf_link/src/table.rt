//! The methods that are selected in a class.

use sqlite_items::Items;

/// The methods that are selected in a class (JVMS 5.4.6), each by its class and number.
#[derive(Debug, Drop)]
pub struct Table {
    /// How many slots stand before those of the class's own methods.
    pub base: u32,
    /// One slot for each method of the classes of the chain, the uppermost class first: the method that is selected for
    /// it; None for a static one.
    pub slots: Items<Option<(u32, u32)>>,
    /// For each interface that the class conforms to, in rising order.
    pub faces: Items<Face>,
}

/// What is selected for each method of an interface; None where nothing is, and for a static one.
#[derive(Debug, Drop)]
pub struct Face {
    pub of: u32,
    pub slots: Items<Option<(u32, u32)>>,
}
