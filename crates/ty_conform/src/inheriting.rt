//! Which classes a class conforms to and inherits.

ghost use Rattle.std.specs.Prelude.{◌≡◌};
ghost use Rattle.ty_linear.specs.Linear.{is_in};
ghost use Rattle.ty_conform.specs.Conforms.{linear_of, class_conforms};

use sqlite_items::at;
use ty_prog::{Class, Ty};

// Whether a class conforms to a type.
pub(crate) fn class_conforms(classes: &[Class], lower: u32, upper: Ty) -> bool
    ensures { result ≡ class_conforms classes.now lower upper }
{
    match upper {
        Ty::Any | Ty::AnyRef => true,
        Ty::Class(upper) => lower == upper || inherits(classes, lower, upper),
        _ => false,
    }
}

/// Whether the linearisation that the first class carries has the second (SLS 5.1.2); that of no class has none.
pub fn inherits(classes: &[Class], lower: u32, upper: u32) -> bool
    ensures { result ≡ is_in (linear_of classes.now lower) upper }
{
    match at(classes, lower as usize) {
        Some(class) => is_in(class.linear.as_slice(), upper),
        None => false,
    }
}

// Whether a class stands in a list.
fn is_in(classes: &[u32], class: u32) -> bool
    ensures { result ≡ is_in classes.now class }
{
    classes.iter().any(|other| class == *other)
}
