//! Why class files aren't linked.

use sl_base::Name;
use thiserror::Error;

/// Why class files aren't linked, with the name of the class that is told: the one given twice, missing, first on a cycle
/// or of wrong shape, or the one in which the missing member was looked for.
#[derive(Debug, Drop, Error)]
#[error("class {name}: {kind}", name = .class.as_str())]
pub struct LinkFault {
    pub class: Name,
    pub kind: LinkKind,
}

/// Why class files aren't linked, in the order in which the kinds are looked for.
#[derive(Clone, Copy, Debug, PartialEq, Eq, Error)]
pub enum LinkKind {
    /// A class has the name of an earlier or built-in one.
    #[error("the name of an earlier or built-in class")]
    Twice,
    /// A named class isn't there.
    #[error("no such class")]
    NoClass,
    /// A class is its own ancestor.
    #[error("the class is its own ancestor")]
    Cyclic,
    /// The superclass is an interface, an interface isn't one, or a descriptor is malformed.
    #[error("a supertype of the wrong kind, or a malformed descriptor")]
    Shape,
    /// A field or method isn't found, or `Main` has no `main` to start at.
    #[error("no such field or method")]
    NoMember,
    /// No memory was left.
    #[error("no memory was left")]
    Memory,
}
