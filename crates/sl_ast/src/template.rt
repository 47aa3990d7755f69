//! Templates.

use crate::args::ParArgs;
use crate::definition::Def;
use crate::expr::Expr;
use crate::ident::Ident;
use sl_text::Span;
use sqlite_items::Items;

/// What a class, trait or object extends, and its members (SLS 5.1).
#[derive(Drop)]
pub struct Template {
    pub parents: Option<Parents>,
    pub body: Option<Items<Member>>,
}

/// The first parent, with arguments where it has some, and the traits after it.
#[derive(Drop)]
pub struct Parents {
    pub first: Ident,
    pub args: Option<ParArgs>,
    pub traits: Items<Ident>,
}

/// A statement of a template: a definition, or an expression.
#[derive(Drop)]
pub enum Member {
    Def {
        modifiers: Items<MemberModifier>,
        def: Def,
        span: Span,
    },
    Expr(Expr),
}

/// A modifier of a member (SLS 5.2).
#[derive(Clone, Copy, Debug, PartialEq, Eq)]
pub enum MemberModifier {
    Override(Span),
    Private(Span),
}
