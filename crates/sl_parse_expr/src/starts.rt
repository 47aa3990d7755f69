//! What a rule begins with, and whether a loop goes on.

ghost use Rattle.std.specs.Prelude.{◌≡◌, List};
ghost use Rattle.sl_ast.specs.declared.block.Stat.{Stat};
ghost use Rattle.sl_ast.specs.declared.infix.Operation.{Operation};
ghost use Rattle.sl_ast.specs.declared.simple.Suffix.{Suffix};
ghost use Rattle.sl_parse_expr.specs.Reading.{ahead, clean, if_clean};
ghost use Rattle.sl_parse_expr.specs.Rules as spec;
ghost use Rattle.sl_parse_expr.specs.PatternRules as patterns;
ghost use Rattle.sl_parse_expr.specs.Starts as starts;
ghost use Rattle.sl_parse_expr.specs.Tokens as values;

use crate::ahead::Ahead;
use crate::chain::Chain;
use crate::cursor::{Cursor, Waiting};

/// Whether it is an operator that may stand before its operand.
pub fn begins_sign(next: Ahead) -> bool
    ensures { result ≡ starts.begins_sign next }
{
    next.is(Ahead::Minus) || next.is(Ahead::Sign)
}

/// Whether it is `val` or `var`.
pub fn begins_binding(next: Ahead) -> bool
    ensures { result ≡ starts.begins_binding next }
{
    next.is(Ahead::Val) || next.is(Ahead::Var)
}

/// Whether it is `;` or a line end.
pub fn separates(next: Ahead) -> bool
    ensures { result ≡ values.separates next }
{
    next.is(Ahead::Semicolon) || next.is(Ahead::Newline)
}

/// Whether it is an operator between two operands.
pub fn is_operator(next: Ahead) -> bool
    ensures { result ≡ starts.is_operator next }
{
    next.is(Ahead::Id)
        || next.is(Ahead::Minus)
        || next.is(Ahead::Bar)
        || next.is(Ahead::Sign)
        || next.is(Ahead::Op)
}

/// Whether a simple expression begins with it.
pub fn begins_head(next: Ahead) -> bool
    ensures { result ≡ starts.begins_head next }
{
    next.is(Ahead::Literal)
        || next.is(Ahead::Id)
        || next.is(Ahead::This)
        || next.is(Ahead::Super)
        || next.is(Ahead::New)
        || next.is(Ahead::OpenParen)
        || next.is(Ahead::OpenBrace)
}

/// Whether an expression begins with it.
pub fn begins_expr(next: Ahead) -> bool
    ensures { result ≡ starts.begins_expr next }
{
    next.is(Ahead::If)
        || next.is(Ahead::While)
        || next.is(Ahead::Try)
        || next.is(Ahead::Throw)
        || begins_sign(next)
        || begins_head(next)
}

/// Whether a pattern begins with it.
pub fn begins_pattern(next: Ahead) -> bool
    ensures { result ≡ patterns.begins_pattern next }
{
    next.is(Ahead::Id)
        || next.is(Ahead::Underscore)
        || next.is(Ahead::OpenParen)
        || next.is(Ahead::Minus)
        || next.is(Ahead::Literal)
}

/// Whether a statement begins with it.
pub fn begins_stat(next: Ahead) -> bool
    ensures { result ≡ starts.begins_stat next }
{
    begins_binding(next) || begins_expr(next)
}

/// Whether a block goes on.
pub fn goes_item(apart: bool, tokens: &Cursor<'_>) -> bool
    ensures { (xs : List Stat) → result ≡ clean (spec.at_item starts.begins_stat) (apart, xs) (ahead tokens.now.1) tokens.now.0 }
{
    tokens.is_clean() && (separates(tokens.ahead()) || (apart && begins_stat(tokens.ahead())))
}

/// Whether a chain of selections and calls goes on.
pub fn goes_suffix(chain: Chain, tokens: &Cursor<'_>) -> bool
    ensures { (xs : List Suffix) → result ≡ clean spec.at_suffix (chain, xs) (ahead tokens.now.1) tokens.now.0 }
{
    tokens.is_clean() && chain.goes(tokens.ahead())
}

/// Whether another operator follows.
pub fn goes_operation(tokens: &Cursor<'_>) -> bool
    ensures { (xs : List Operation) → result ≡ clean spec.at_operator xs (ahead tokens.now.1) tokens.now.0 }
{
    tokens.is_clean() && is_operator(tokens.ahead())
}

/// Whether `match` or `=` follows.
pub fn offers_behind(tokens: &Cursor<'_>) -> bool
    ensures { result ≡ if_clean spec.at_behind tokens.now.0 (ahead tokens.now.1) }
{
    tokens.is_clean() && (tokens.is_at(Ahead::Match) || tokens.is_at(Ahead::Equals))
}

/// Whether with this token a `;` or two line ends stand there, behind which only `else` may follow.
pub fn semi_from(held: Waiting, next: Ahead) -> bool
    ensures { result ≡ spec.semi_from held next }
{
    match held {
        Waiting::Nothing => next.is(Ahead::Semicolon),
        Waiting::Line => next.is(Ahead::Newline),
        Waiting::More => false,
    }
}

/// Whether with this token one line end stands there.
pub fn line_from(held: Waiting, next: Ahead) -> bool
    ensures { result ≡ spec.line_from held next }
{
    match held {
        Waiting::Nothing => next.is(Ahead::Newline),
        _ => false,
    }
}

/// Whether `:`, `@` or a parenthesis follows a name in a pattern.
pub fn offers_name(tokens: &Cursor<'_>) -> bool
    ensures { result ≡ if_clean patterns.at_name tokens.now.0 (ahead tokens.now.1) }
{
    tokens.is_clean()
        && (tokens.is_at(Ahead::Colon) || tokens.is_at(Ahead::At) || tokens.is_at(Ahead::OpenParen))
}
