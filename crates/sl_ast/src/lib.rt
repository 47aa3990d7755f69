//! Tokens, and the trees of source files: one type for each nonterminal of the grammar, one variant for each
//! alternative.
#![tactic(auto)]

mod args;
mod binding;
mod block;
mod cases;
mod definition;
mod expr;
mod ident;
mod infix;
mod literal;
mod operator;
mod pattern;
mod shape;
mod simple;
mod template;
mod token;
mod type_fault;
mod type_tree;
mod unit;

pub use args::{Args, ParArgs};
pub use binding::Binding;
pub use block::{Block, Stat};
pub use cases::{Case, Cases};
pub use definition::{Def, Param};
pub use expr::Expr;
pub use ident::Ident;
pub use infix::{Infix, Operation, Prefix};
pub use literal::Literal;
pub use operator::{Operator, Sign};
pub use pattern::{Pat, PatS, Pattern, Wildcard};
pub use shape::{KEYWORDS, MARKS, Shape};
pub use simple::{Head, Simple, Suffix};
pub use template::{Member, MemberModifier, Parents, Template};
pub use token::{Token, TokenKind};
pub use type_fault::{TypeFault, TypeKind};
pub use type_tree::TypeTree;
pub use unit::{ClassModifier, ClassParam, ParamMember, Params, TopDef, Unit};
