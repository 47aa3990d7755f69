//! What the definitions entail, as laws.

ghost use Rattle.std.specs.Prelude.{List, IsTrue};
ghost use Rattle.ty_prog.specs.declared.class.Class.{Class};
ghost use Rattle.ty_prog.specs.declared.ty.Ty.{Ty};
ghost use Rattle.ty_conform.specs.Conforms.{AreClosed};
ghost use Rattle.ty_typed.specs.Stands.{stands_for, fits};

use ty_conform::conformance;

/// Values that fit a type fit each type that it stands for, where linearisations have those of the classes in them.
pub fn fitting()
    ensures { (classes : List Class) → AreClosed classes → (types : List Ty) (middle upper : Ty)
        → IsTrue (fits classes types middle) → IsTrue (stands_for classes middle upper) → IsTrue (fits classes types upper) }
{
    conformance();
}
