//! Classes.

ghost use Rattle.std.specs.Prelude.{◌≡◌};
ghost use Rattle.ty_prog.specs.New.{new_class};

use crate::cell::Cell;
use crate::expr::Expr;
use crate::field::Field;
use crate::kind::Kind;
use crate::method::Method;
use sl_base::Name;
use sqlite_items::Items;
use std::alloc::Global;

/// A class, trait or object (SLS 5). Its fields, cells and methods are its own alone, named by their numbers from 0.
#[derive(Debug, Drop)]
pub struct Class {
    pub name: Name,
    pub kind: Kind,
    /// The superclass and the traits, as they are written; none where the superclass is AnyRef.
    pub parents: Items<u32>,
    /// The linearisation, which begins with the class itself (SLS 5.1.2).
    pub linear: Items<u32>,
    /// For each class parameter the field that holds it. A constructor's first locals are its arguments, in this order.
    pub params: Items<u32>,
    /// The traits whose statements the constructor runs, in the order of the mixin evaluation (SLS 5.1); none of a trait.
    pub mixins: Items<u32>,
    pub fields: Items<Field>,
    pub cells: Items<Cell>,
    pub methods: Items<Method>,
    /// The arguments of the superclass constructor.
    pub super_args: Items<Expr>,
    /// The statements of the template, in order.
    pub body: Items<Expr>,
    /// How many locals the constructor has, its arguments included.
    pub locals: u32,
}

impl Class {
    /// A class without parents, members, statements and locals.
    pub fn new(alloc: Global, name: Name, kind: Kind) -> Class
        ensures { result ≡ new_class name kind }
    {
        Class {
            name,
            kind,
            parents: Items::new(alloc),
            linear: Items::new(alloc),
            params: Items::new(alloc),
            mixins: Items::new(alloc),
            fields: Items::new(alloc),
            cells: Items::new(alloc),
            methods: Items::new(alloc),
            super_args: Items::new(alloc),
            body: Items::new(alloc),
            locals: 0,
        }
    }
}
