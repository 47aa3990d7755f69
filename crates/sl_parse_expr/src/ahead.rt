//! What the rules of the grammar see of the next token.

ghost use Rattle.std.specs.Prelude.{◌≡◌};
ghost use Rattle.sl_parse_expr.specs.Ahead.{of_shape, of_operator, sort, code, same};

use sl_ast::{Shape, Token, TokenKind};

/// What a rule of the grammar sees of the next token.
#[derive(Clone, Copy, Debug)]
pub enum Ahead {
    /// There is no token.
    End,
    Newline,
    Semicolon,
    Id,
    /// The operator `-`.
    Minus,
    /// The operator `|`.
    Bar,
    /// The operators `+`, `!` and `~`, which stand before an operand too.
    Sign,
    /// Any other operator.
    Op,
    Literal,
    If,
    While,
    Try,
    Throw,
    This,
    Super,
    New,
    Else,
    Catch,
    Finally,
    Match,
    Case,
    Val,
    Var,
    Class,
    Object,
    Trait,
    Extends,
    With,
    Lazy,
    Def,
    Override,
    Private,
    Sealed,
    Abstract,
    Underscore,
    Colon,
    Equals,
    Arrow,
    At,
    OpenParen,
    CloseParen,
    OpenBracket,
    CloseBracket,
    OpenBrace,
    CloseBrace,
    Comma,
    Dot,
    /// A word or a mark that stands in no rule.
    Other,
}

impl Ahead {
    // What a rule sees of a token of this shape, operators apart.
    fn of_shape(shape: Shape) -> Ahead
        ensures { result ≡ of_shape shape }
    {
        match shape {
            Shape::Id => Ahead::Id,
            Shape::Number | Shape::Text | Shape::True | Shape::False | Shape::Null => {
                Ahead::Literal
            }
            Shape::Newline => Ahead::Newline,
            Shape::Abstract => Ahead::Abstract,
            Shape::Case => Ahead::Case,
            Shape::Catch => Ahead::Catch,
            Shape::Class => Ahead::Class,
            Shape::Def => Ahead::Def,
            Shape::Else => Ahead::Else,
            Shape::Extends => Ahead::Extends,
            Shape::Finally => Ahead::Finally,
            Shape::If => Ahead::If,
            Shape::Lazy => Ahead::Lazy,
            Shape::Match => Ahead::Match,
            Shape::New => Ahead::New,
            Shape::Object => Ahead::Object,
            Shape::Override => Ahead::Override,
            Shape::Private => Ahead::Private,
            Shape::Sealed => Ahead::Sealed,
            Shape::Super => Ahead::Super,
            Shape::This => Ahead::This,
            Shape::Throw => Ahead::Throw,
            Shape::Trait => Ahead::Trait,
            Shape::Try => Ahead::Try,
            Shape::Val => Ahead::Val,
            Shape::Var => Ahead::Var,
            Shape::While => Ahead::While,
            Shape::With => Ahead::With,
            Shape::Underscore => Ahead::Underscore,
            Shape::Colon => Ahead::Colon,
            Shape::Equals => Ahead::Equals,
            Shape::Arrow => Ahead::Arrow,
            Shape::At => Ahead::At,
            Shape::OpenParen => Ahead::OpenParen,
            Shape::CloseParen => Ahead::CloseParen,
            Shape::OpenBracket => Ahead::OpenBracket,
            Shape::CloseBracket => Ahead::CloseBracket,
            Shape::OpenBrace => Ahead::OpenBrace,
            Shape::CloseBrace => Ahead::CloseBrace,
            Shape::Comma => Ahead::Comma,
            Shape::Semicolon => Ahead::Semicolon,
            Shape::Dot => Ahead::Dot,
            _ => Ahead::Other,
        }
    }

    // What a rule sees of an operator, by the bytes of its text.
    fn of_operator(text: &[u8]) -> Ahead
        ensures { result ≡ of_operator text.now }
    {
        match text {
            [byte] => match *byte {
                b'-' => Ahead::Minus,
                b'|' => Ahead::Bar,
                b'+' | b'!' | b'~' => Ahead::Sign,
                _ => Ahead::Op,
            },
            _ => Ahead::Op,
        }
    }

    /// What a rule sees of this token.
    #[tactic(auto, unfolding(crate::specs::Ahead::sort))]
    pub fn of(token: &Token) -> Ahead
        ensures { result ≡ sort token.now }
    {
        match &token.kind {
            TokenKind::Op(text) => Ahead::of_operator(text.as_str().as_bytes()),
            _ => Ahead::of_shape(token.kind.shape()),
        }
    }

    /// Whether it is this one.
    pub fn is(self, other: Ahead) -> bool
        ensures { result ≡ same other self }
    {
        other as u8 == self as u8
    }
}
