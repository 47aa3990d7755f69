//! Names in trees.

use sl_base::Name;
use sl_text::Span;

/// A name, with its span: the terminal `id` of the grammar.
#[derive(Drop)]
pub struct Ident {
    pub name: Name,
    pub span: Span,
}
