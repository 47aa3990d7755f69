//! Fields.

ghost use Rattle.std.specs.Prelude.{◌≡◌};

use crate::ty::Ty;
use sl_base::Name;

/// A field of a class: a class parameter, a `val` or a `var` (SLS 4.1, 4.2).
#[derive(Debug, Drop)]
pub struct Field {
    pub name: Name,
    pub ty: Ty,
}

impl Field {
    /// A field of this name and type.
    pub fn new(name: Name, ty: Ty) -> Field
        ensures name { result.name ≡ name }
        ensures ty { result.ty ≡ ty }
    {
        Field { name, ty }
    }
}
