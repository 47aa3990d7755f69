//! Literals in trees.

use sl_base::Name;
use sl_num::Numeral;
use sl_text::Span;

/// A literal (SLS 1.3).
#[derive(Drop)]
pub enum Literal {
    Number(Numeral, Span),
    Text(Name, Span),
    True(Span),
    False(Span),
    Null(Span),
}
