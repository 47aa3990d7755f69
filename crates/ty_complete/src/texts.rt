//! Whether the texts of a program fit. Plain, for tests on small programs.

ghost use Rattle.std.specs.Prelude.{◌≡◌, ◌↔◌, IsTrue, nat_le, length};
ghost use Rattle.std.specs.Str.{chars};
ghost use Rattle.ty_complete.specs.Complete.{level_text_fits, text_fits, TextsFit};
ghost use Rattle.ty_prog.specs.declared.expr.Expr.{out-Expr};

use ty_prog::{Expr, Name, Node, Program};
use ty_walk::{Rule, holds_in_program};

/// Whether each text has at most 10,000 characters, whose bytes a class file's constant holds (JVMS 4.4.7).
pub fn texts_fit(p: &Program) -> bool
    ensures { IsTrue result ↔ TextsFit p.now }
{
    holds_in_program(&FittingTexts, p)
}

// A node that is a text has at most 10,000 characters.
#[derive(Clone, Copy)]
struct FittingTexts;

impl Rule for FittingTexts {
    ghost use Rattle.ty_complete.specs.Complete.{text_fits};

    ghost holds = { λ rule. text_fits };

    fn holds(&self, node: Node<'_>) -> bool {
        match node {
            Node::Expr(e) => expr_fits(e),
            _ => true,
        }
    }
}

// Whether a text in an expression is short enough.
fn expr_fits(e: &Expr) -> bool
    ensures { result ≡ level_text_fits (out-Expr e.now) }
{
    match e {
        Expr::Text(text) => is_short(text),
        _ => true,
    }
}

// Whether a text has at most 10,000 characters.
fn is_short(text: &Name) -> bool
    ensures { result ≡ nat_le (length text.now) 10000 }
{
    characters(text.as_str()) <= 10_000
}

// How many characters a text has.
fn characters(text: &str) -> usize
    ensures { result ≡ length (chars text.now) }
{
    text.chars().count()
}
