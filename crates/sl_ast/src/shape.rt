//! What a grammar sees of a token.

ghost use Rattle.std.specs.Prelude.{◌≡◌};
ghost use Rattle.sl_ast.specs.Shape.{shape, numbered};

use crate::token::TokenKind;

/// A token without its text and its value: a variant for each keyword and each mark.
#[derive(Clone, Copy, Debug, PartialEq, Eq)]
pub enum Shape {
    Id,
    Op,
    Number,
    Text,
    Newline,
    // The keywords (SLS 1.1).
    Abstract,
    Case,
    Catch,
    Class,
    Def,
    Do,
    Else,
    Extends,
    False,
    Final,
    Finally,
    For,
    ForSome,
    If,
    Implicit,
    Import,
    Lazy,
    Macro,
    Match,
    New,
    Null,
    Object,
    Override,
    Package,
    Private,
    Protected,
    Return,
    Sealed,
    Super,
    This,
    Throw,
    Trait,
    Try,
    True,
    TypeWord,
    Val,
    Var,
    While,
    With,
    Yield,
    // The marks.
    Underscore,
    Colon,
    Equals,
    Arrow,
    LeftArrow,
    UpperBound,
    ViewBound,
    LowerBound,
    Hash,
    At,
    OpenParen,
    CloseParen,
    OpenBracket,
    CloseBracket,
    OpenBrace,
    CloseBrace,
    Comma,
    Semicolon,
    Dot,
    /// A number that no keyword or no mark has.
    Unknown,
}

/// The keywords, in the order of their numbers.
pub const KEYWORDS: [Shape; 40] = [
    Shape::Abstract,
    Shape::Case,
    Shape::Catch,
    Shape::Class,
    Shape::Def,
    Shape::Do,
    Shape::Else,
    Shape::Extends,
    Shape::False,
    Shape::Final,
    Shape::Finally,
    Shape::For,
    Shape::ForSome,
    Shape::If,
    Shape::Implicit,
    Shape::Import,
    Shape::Lazy,
    Shape::Macro,
    Shape::Match,
    Shape::New,
    Shape::Null,
    Shape::Object,
    Shape::Override,
    Shape::Package,
    Shape::Private,
    Shape::Protected,
    Shape::Return,
    Shape::Sealed,
    Shape::Super,
    Shape::This,
    Shape::Throw,
    Shape::Trait,
    Shape::Try,
    Shape::True,
    Shape::TypeWord,
    Shape::Val,
    Shape::Var,
    Shape::While,
    Shape::With,
    Shape::Yield,
];

/// The marks, in the order of their numbers: `_ : = => <- <: <% >: # @ ( ) [ ] { } , ; .`
pub const MARKS: [Shape; 19] = [
    Shape::Underscore,
    Shape::Colon,
    Shape::Equals,
    Shape::Arrow,
    Shape::LeftArrow,
    Shape::UpperBound,
    Shape::ViewBound,
    Shape::LowerBound,
    Shape::Hash,
    Shape::At,
    Shape::OpenParen,
    Shape::CloseParen,
    Shape::OpenBracket,
    Shape::CloseBracket,
    Shape::OpenBrace,
    Shape::CloseBrace,
    Shape::Comma,
    Shape::Semicolon,
    Shape::Dot,
];

impl TokenKind {
    /// The shape of a token of this kind.
    pub fn shape(&self) -> Shape
        ensures { result ≡ shape self.now }
    {
        match self {
            TokenKind::Id(_) => Shape::Id,
            TokenKind::Op(_) => Shape::Op,
            TokenKind::Key(number) => at(&KEYWORDS, *number),
            TokenKind::Mark(number) => at(&MARKS, *number),
            TokenKind::Number(_) => Shape::Number,
            TokenKind::Text(_) => Shape::Text,
            TokenKind::Newline => Shape::Newline,
        }
    }
}

// The shape with this number in a table.
fn at(table: &[Shape], number: u8) -> Shape
    ensures { result ≡ numbered table.now number }
{
    match table.get(number as usize) {
        Some(shape) => *shape,
        None => Shape::Unknown,
    }
}
