//! Expressions.

use crate::case::Case;
use crate::catch::Catch;
use crate::prim_op::PrimOp;
use crate::tested::Tested;
use crate::ty::Ty;
use sl_base::Name;
use sqlite_items::{Boxed, Items};

/// An expression of the language L, whose children stand in the order of their evaluation. Classes, fields, cells,
/// methods and locals are named by their numbers.
#[cycle(tree)]
#[derive(Debug, Drop)]
pub enum Expr {
    // Common forms, which every pass knows.
    Int(i32),
    Long(i64),
    Bool(bool),
    Text(Name),
    Null,
    Unit,
    Local(u32),
    SetLocal(u32, Boxed<Expr>),
    This,
    Get {
        of: Boxed<Expr>,
        class: u32,
        field: u32,
    },
    Put {
        of: Boxed<Expr>,
        class: u32,
        field: u32,
        value: Boxed<Expr>,
    },
    Call {
        of: Boxed<Expr>,
        class: u32,
        method: u32,
        args: Items<Expr>,
    },
    New {
        class: u32,
        args: Items<Expr>,
    },
    Prim {
        op: PrimOp,
        args: Items<Expr>,
    },
    Convert {
        to: Ty,
        of: Boxed<Expr>,
    },
    Equal(Boxed<Expr>, Boxed<Expr>),
    TextOf(Boxed<Expr>),
    Println(Option<Boxed<Expr>>),
    If(Boxed<Expr>, Boxed<Expr>, Boxed<Expr>),
    While(Boxed<Expr>, Boxed<Expr>),
    Block(Items<Expr>),
    Try {
        body: Boxed<Expr>,
        handler: Option<Catch>,
        last: Option<Boxed<Expr>>,
    },
    Throw(Boxed<Expr>),
    Start(Boxed<Expr>),
    // High forms, which the lowerings remove.
    Match {
        of: Boxed<Expr>,
        cases: Items<Case>,
    },
    LazyGet {
        of: Boxed<Expr>,
        class: u32,
        cell: u32,
    },
    ObjectGet(u32),
    SuperCall {
        after: u32,
        name: Name,
        args: Items<Expr>,
    },
    // Low forms, which the lowerings make.
    Test {
        of: Boxed<Expr>,
        test: Tested,
    },
    Cas {
        of: Boxed<Expr>,
        class: u32,
        field: u32,
        old: Boxed<Expr>,
        new: Boxed<Expr>,
    },
    /// A latch, made by the thread that read this value; the value tells whether one is wanted.
    NewLatch(Boxed<Expr>),
    /// Whether this control value names the thread that asks.
    OwnedHere(Boxed<Expr>),
    Await(Boxed<Expr>),
    CountDown(Boxed<Expr>),
    StaticCall {
        class: u32,
        method: u32,
        args: Items<Expr>,
    },
    ModuleGet(u32),
    SetModule(u32, Boxed<Expr>),
}
