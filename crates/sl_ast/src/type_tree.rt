//! Written types.

use crate::ident::Ident;
use sl_text::Span;

/// A written type (SLS 3.2): a name, or one with a type argument.
#[derive(Drop)]
pub enum TypeTree {
    Name(Ident),
    Applied { name: Ident, arg: Ident, span: Span },
}
