//! Definitions of members.

use crate::expr::Expr;
use crate::ident::Ident;
use crate::type_tree::TypeTree;
use sl_text::Span;
use sqlite_items::Items;

/// A definition or declaration of a member (SLS 4). A member without a right side is deferred.
#[derive(Drop)]
pub enum Def {
    Val {
        name: Ident,
        ty: Option<TypeTree>,
        value: Option<Expr>,
        span: Span,
    },
    Var {
        name: Ident,
        ty: Option<TypeTree>,
        value: Expr,
        span: Span,
    },
    Lazy {
        name: Ident,
        ty: Option<TypeTree>,
        value: Expr,
        span: Span,
    },
    Def {
        name: Ident,
        params: Option<Items<Param>>,
        ty: TypeTree,
        value: Option<Expr>,
        span: Span,
    },
}

/// A parameter of a method (SLS 4.6).
#[derive(Drop)]
pub struct Param {
    pub name: Ident,
    pub ty: TypeTree,
    pub span: Span,
}
