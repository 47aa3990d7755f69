//! What a text is cut into.

use crate::fault::LexKind;
use sl_ast::TokenKind;

/// What stands at an offset, with the number of its characters: white space or a comment, a token, or a fault.
#[derive(Drop)]
pub enum Piece {
    Blank(usize),
    Token(TokenKind, usize),
    Fault(LexKind, usize),
}
