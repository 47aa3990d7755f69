//! Cells.

ghost use Rattle.std.specs.Prelude.{◌≡◌};

use crate::expr::Expr;
use crate::ty::Ty;
use sl_base::Name;

/// A lazy member of a class (SLS 5.2, SIP-20): the initialiser, and how many locals it has.
#[derive(Debug, Drop)]
pub struct Cell {
    pub name: Name,
    pub ty: Ty,
    pub init: Expr,
    pub locals: u32,
}

impl Cell {
    /// A lazy member of these parts.
    pub fn new(name: Name, ty: Ty, init: Expr, locals: u32) -> Cell
        ensures name { result.name ≡ name }
        ensures ty { result.ty ≡ ty }
        ensures init { result.init ≡ init }
        ensures locals { result.locals ≡ locals }
    {
        Cell {
            name,
            ty,
            init,
            locals,
        }
    }
}
