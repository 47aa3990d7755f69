//! The tokens that are still to be read.

ghost use Rattle.std.specs.Prelude.{◌≡◌, length};
ghost use Rattle.std.specs.Option.{option_copied};
ghost use Rattle.sl_newline.specs.Regions.{head, rest, head_shape};

use sl_ast::{Shape, Token};
use std::marker::Model;

/// Tokens that are read from the first on.
#[derive(Drop)]
pub struct Cursor<'a> {
    left: &'a [Token],
}

impl<'a> Model for Cursor<'a> {
    ghost use Rattle.std.specs.Prelude.{List};
    ghost use Rattle.sl_ast.specs.declared.token.Token.{Token};

    ghost Value = { List Token };

    ghost view = { λ c. c.left.now };
}

impl<'a> Cursor<'a> {
    /// All of these tokens.
    pub fn new(left: &'a [Token]) -> Cursor<'a>
        ensures { result ≡ left.now }
    {
        Cursor { left }
    }

    /// The next token.
    pub fn peek(&self) -> Option<&'a Token>
        ensures { option_copied result ≡ head self.now }
    {
        self.left.first()
    }

    /// The shape of the first token.
    pub fn shape(&self) -> Option<Shape>
        ensures { result ≡ head_shape self.now }
    {
        match self.left.first() {
            None => None,
            Some(token) => Some(token.kind.shape()),
        }
    }

    /// Goes past a token.
    pub fn skip(&mut self)
        ensures { self.new ≡ rest self.old }
    {
        if let [_, left @ ..] = self.left {
            self.left = left;
        }
    }
}
