//! Tokens.

use sl_base::Name;
use sl_num::Numeral;
use sl_text::Span;

/// A token, and the characters that it stands at (SLS 1). A newline stands at an empty span.
#[derive(Debug, Drop)]
pub struct Token {
    pub kind: TokenKind,
    pub span: Span,
}

/// What a token is. `Key` numbers the keywords, `Mark` the other reserved words, each by its table (`KEYWORDS`,
/// `MARKS`).
#[derive(Debug, Drop)]
pub enum TokenKind {
    Id(Name),
    Op(Name),
    Key(u8),
    Mark(u8),
    Number(Numeral),
    Text(Name),
    Newline,
}
