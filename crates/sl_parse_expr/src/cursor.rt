//! The tokens that are still to be read.

ghost use Rattle.std.specs.Prelude.{◌≡◌, ◌++◌, ◌&&◌, [], length};
ghost use Rattle.std.specs.Option.{option_copied};
ghost use Rattle.sl_parse_expr.specs.Ahead.{same};
ghost use Rattle.sl_parse_expr.specs.Reading.{ahead, if_clean, first, rest, nothing, waits, head};

use crate::ahead::Ahead;
use sl_ast::Token;
use std::marker::Model;

/// What is held, as far as a rule looks at it.
#[derive(Clone, Copy, Debug, PartialEq, Eq)]
pub enum Waiting {
    Nothing,
    /// One line end.
    Line,
    More,
}

/// The tokens that are still to be read. The first of them may be held: separators that were looked at, since an
/// optional part may stand behind them, and that go before whatever follows where it doesn't.
#[derive(Drop)]
pub struct Cursor<'a> {
    tokens: &'a [Token],
    held: usize,
}

impl<'a> Model for Cursor<'a> {
    ghost use Rattle.std.specs.Prelude.{List, length, take, drop, ◌≤◌};
    ghost use Rattle.sl_ast.specs.declared.token.Token.{Token};

    ghost Value = { List Token × List Token };

    ghost view = { λ c. (take c.held c.tokens.now, drop c.held c.tokens.now) };

    ghost invariant = { λ c. c.held ≤ length c.tokens.now };
}

impl<'a> Cursor<'a> {
    /// These tokens, with nothing held.
    pub fn new(tokens: &'a [Token]) -> Cursor<'a>
        ensures { result ≡ ([], tokens.now) }
    {
        Cursor { tokens, held: 0 }
    }

    /// How many tokens are left behind what is held.
    pub fn len(&self) -> usize
        ensures { result ≡ length self.now.1 }
    {
        self.tokens.len() - self.held
    }

    /// Whether nothing is held.
    pub fn is_clean(&self) -> bool
        ensures { result ≡ nothing self.now.0 }
    {
        self.held == 0
    }

    /// What is held.
    pub fn waits(&self) -> Waiting
        ensures { result ≡ waits self.now.0 }
    {
        match &self.tokens[..self.held] {
            [] => Waiting::Nothing,
            [token] => {
                if Ahead::of(token).is(Ahead::Newline) {
                    Waiting::Line
                } else {
                    Waiting::More
                }
            }
            _ => Waiting::More,
        }
    }

    /// The next token.
    pub fn peek(&self) -> Option<&'a Token>
        ensures { option_copied result ≡ head self.now.1 }
    {
        self.tokens.get(self.held)
    }

    /// What a rule sees of the next token.
    pub fn ahead(&self) -> Ahead
        ensures { result ≡ ahead self.now.1 }
    {
        match self.peek() {
            Some(token) => Ahead::of(token),
            None => Ahead::End,
        }
    }

    /// Whether the next token is of this kind.
    pub fn is_at(&self, what: Ahead) -> bool
        ensures { result ≡ same what (ahead self.now.1) }
    {
        self.ahead().is(what)
    }

    /// Whether nothing is held and the next token is of this kind.
    pub fn offers(&self, what: Ahead) -> bool
        ensures { result ≡ if_clean (same what) self.now.0 (ahead self.now.1) }
    {
        self.is_clean() && self.is_at(what)
    }

    /// Takes a token, and nothing is held.
    pub fn skip(&mut self)
        ensures { self.new ≡ ([], rest self.old.1) }
    {
        self.hold();
        let _clean = self.absorb();
    }

    /// Holds the next token.
    pub fn hold(&mut self)
        ensures { self.new ≡ (self.old.0 ++ first self.old.1, rest self.old.1) }
    {
        if self.held < self.tokens.len() {
            self.held += 1;
        }
    }

    /// What is held goes away; what it was.
    pub fn settle(&mut self) -> Waiting
        ensures held { result ≡ waits self.old.0 }
        ensures rest { self.new ≡ ([], self.old.1) }
    {
        let held = self.waits();
        let _clean = self.absorb();
        held
    }

    /// What is held goes away.
    pub fn absorb(&mut self) -> bool
        ensures clean { result ≡ nothing self.old.0 }
        ensures rest { self.new ≡ ([], self.old.1) }
    {
        let clean = self.held == 0;
        self.tokens = &self.tokens[self.held..];
        self.held = 0;
        clean
    }
}
