//! What is wanted of a type.

ghost use Rattle.std.specs.Prelude.{◌≡◌, option_to_list};
ghost use Rattle.ty_typed.specs.Parts.{suits, all_suit};

use crate::converting::converts;
use crate::standing::stands_for;
use ty_prog::{Program, Ty};

/// What is wanted of the type of a value: that the value may stand where one of a type is wanted, or that it can be made
/// one of a type.
#[derive(Clone, Copy)]
pub(crate) enum Wanted {
    Stands(Ty),
    Converts(Ty),
}

/// Whether a type is what is wanted.
pub(crate) fn suits(p: &Program, ty: Ty, wanted: Wanted) -> bool
    ensures { result ≡ suits p.now.classes wanted ty }
{
    match wanted {
        Wanted::Stands(upper) => stands_for(p, ty, upper),
        Wanted::Converts(to) => converts(p.classes.as_slice(), ty, to),
    }
}

/// Whether a type, if there is one, is what is wanted.
pub(crate) fn some_suits(p: &Program, ty: Option<Ty>, wanted: Wanted) -> bool
    ensures { result ≡ all_suit p.now.classes wanted (option_to_list ty) }
{
    match ty {
        Some(ty) => suits(p, ty, wanted),
        None => true,
    }
}
