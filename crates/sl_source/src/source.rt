//! Source files that were read.

use sl_ast::Unit;
use sl_text::Text;

/// A source file: its characters, which tell lines and columns, and its tree.
#[derive(Drop)]
pub struct Source {
    pub text: Text,
    pub tree: Unit,
}
