//! What a class is by its number.

ghost use Rattle.std.specs.Prelude.{◌≡◌};
ghost use Rattle.ty_conform.specs.Kinds.{is_trait_kind, is_trait, is_object, superclass, superclass_of, is_superclass, reaches, is_known};

use crate::inheriting::inherits;
use sqlite_items::at;
use ty_prog::{Class, Kind, Ty};

/// Whether a kind is that of traits.
pub fn is_trait_kind(kind: Kind) -> bool
    ensures { result ≡ is_trait_kind kind }
{
    matches!(kind, Kind::Trait)
}

/// Whether a class is a trait (SLS 5.3.3).
pub fn is_trait(classes: &[Class], class: u32) -> bool
    ensures { result ≡ is_trait classes.now class }
{
    match at(classes, class as usize) {
        Some(class) => is_trait_kind(class.kind),
        None => false,
    }
}

/// Whether a class is that of an object definition (SLS 5.5).
pub fn is_object(classes: &[Class], class: u32) -> bool
    ensures { result ≡ is_object classes.now class }
{
    match at(classes, class as usize) {
        Some(class) => matches!(class.kind, Kind::Object),
        None => false,
    }
}

/// The superclass in a list of parents (SLS 5.1): the first, if that is no trait; None for AnyRef.
pub fn superclass(classes: &[Class], parents: &[u32]) -> Option<u32>
    ensures { result ≡ superclass classes.now parents.now }
{
    match parents.first() {
        Some(first) => {
            if is_trait(classes, *first) {
                None
            } else {
                Some(*first)
            }
        }
        None => None,
    }
}

/// The superclass of a class; None for AnyRef, and where there is no such class.
pub fn superclass_of(classes: &[Class], class: u32) -> Option<u32>
    ensures { result ≡ superclass_of classes.now class }
{
    match at(classes, class as usize) {
        Some(class) => superclass(classes, class.parents.as_slice()),
        None => None,
    }
}

/// Whether the second class is in the chain of superclasses of the first (SLS 5.1).
pub fn is_superclass(classes: &[Class], lower: u32, upper: u32) -> bool
    ensures { result ≡ is_superclass classes.now lower upper }
{
    lower != upper && inherits(classes, lower, upper) && !is_trait(classes, upper)
}

/// Whether the linearisation of a superclass has a class; that of AnyRef, which is None, has none.
pub fn reaches(classes: &[Class], above: Option<u32>, class: u32) -> bool
    ensures { result ≡ reaches classes.now above class }
{
    match above {
        Some(above) => inherits(classes, above, class),
        None => false,
    }
}

/// Whether a type names no class that isn't there.
pub fn is_known(classes: &[Class], ty: Ty) -> bool
    ensures { result ≡ is_known classes.now ty }
{
    match ty {
        Ty::Class(class) => (class as usize) < classes.len(),
        _ => true,
    }
}
