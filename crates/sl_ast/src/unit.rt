//! Whole files.

use crate::binding::Binding;
use crate::ident::Ident;
use crate::template::Template;
use crate::type_tree::TypeTree;
use sl_text::Span;
use sqlite_items::Items;

/// The classes, traits and objects of a file, without separators.
#[derive(Drop)]
pub struct Unit {
    pub defs: Items<TopDef>,
}

/// A class, trait or object (SLS 5.3 to 5.5).
#[derive(Drop)]
pub enum TopDef {
    Class {
        modifiers: Items<ClassModifier>,
        is_case: bool,
        name: Ident,
        params: Option<Params>,
        template: Template,
        span: Span,
    },
    Trait {
        is_sealed: bool,
        name: Ident,
        template: Template,
        span: Span,
    },
    Object {
        name: Ident,
        template: Template,
        span: Span,
    },
}

/// A modifier of a class (SLS 5.2).
#[derive(Clone, Copy, Debug, PartialEq, Eq)]
pub enum ClassModifier {
    Sealed(Span),
    Abstract(Span),
}

/// The parameters of a class, in parentheses.
#[derive(Drop)]
pub struct Params {
    pub params: Items<ClassParam>,
    pub span: Span,
}

/// A parameter of a class (SLS 5.3); with `val` or `var` a member too.
#[derive(Drop)]
pub struct ClassParam {
    pub member: Option<ParamMember>,
    pub name: Ident,
    pub ty: TypeTree,
    pub span: Span,
}

/// Which member a parameter of a class is.
#[derive(Clone, Copy, Debug, PartialEq, Eq)]
pub struct ParamMember {
    pub is_private: bool,
    pub binding: Binding,
}
