//! Which suffixes may follow.

ghost use Rattle.std.specs.Prelude.{◌≡◌, List};
ghost use Rattle.sl_ast.specs.declared.simple.Suffix.{Suffix};
ghost use Rattle.sl_parse_expr.specs.Rules as spec;

use crate::ahead::Ahead;

/// Which suffixes may follow: all, `.id` alone, or none since a line end was held.
#[derive(Clone, Copy, Debug, PartialEq, Eq)]
pub enum Chain {
    All,
    Selections,
    Over,
}

impl Chain {
    /// After a head that all suffixes may follow, or `.id` alone.
    pub fn first(all: bool) -> Chain
        ensures { result ≡ spec.first_chain all }
    {
        if all { Chain::All } else { Chain::Selections }
    }

    /// Whether a suffix may begin with this.
    pub fn goes(self, next: Ahead) -> bool
        ensures { result ≡ spec.goes_chain self next }
    {
        match self {
            Chain::All => {
                next.is(Ahead::Dot)
                    || next.is(Ahead::OpenParen)
                    || next.is(Ahead::OpenBrace)
                    || next.is(Ahead::Newline)
            }
            Chain::Selections => next.is(Ahead::Dot),
            Chain::Over => false,
        }
    }
}
