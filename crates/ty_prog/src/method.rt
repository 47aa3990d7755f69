//! Methods.

ghost use Rattle.std.specs.Prelude.{◌≡◌};
ghost use Rattle.ty_prog.specs.New.{new_method};

use crate::expr::Expr;
use crate::ty::Ty;
use sl_base::Name;
use sqlite_items::Items;
use std::alloc::Global;

/// A method of a class (SLS 4.6), deferred where it has no body. Its first locals are its arguments, and are counted
/// in `locals`. A static one has no `this`.
#[derive(Debug, Drop)]
pub struct Method {
    pub name: Name,
    pub params: Items<Ty>,
    pub result: Ty,
    pub body: Option<Expr>,
    pub is_static: bool,
    pub locals: u32,
}

impl Method {
    /// A method without parameters and locals, which isn't static.
    pub fn new(alloc: Global, name: Name, ty: Ty, body: Option<Expr>) -> Method
        ensures { result ≡ new_method name ty body }
    {
        Method {
            name,
            params: Items::new(alloc),
            result: ty,
            body,
            is_static: false,
            locals: 0,
        }
    }
}
