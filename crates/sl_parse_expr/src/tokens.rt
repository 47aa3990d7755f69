//! Single tokens.

ghost use Rattle.std.specs.Prelude.{◌≡◌};
ghost use Rattle.sl_parse_expr.specs.Reading.{Reads};
ghost use Rattle.sl_parse_expr.specs.Reading as reading;
ghost use Rattle.sl_parse_expr.specs.Rules as spec;
ghost use Rattle.sl_parse_expr.specs.Tokens as values;
ghost use Rattle.std.specs.Prelude.{IfOk, IfErr};
ghost use Rattle.sl_parse_expr.specs.declared.stopped.Stopped.TheVariants.{Memory};

use crate::ahead::Ahead;
use crate::cursor::Cursor;
use crate::stopped::Stopped;
use sl_ast::{Binding, Ident, Literal, Operator, Shape, Sign, TokenKind};
use sl_text::Span;
use std::alloc::Global;

/// A token of this kind, with nothing held before it: where it stands.
#[tactic(auto, unfolding(crate::specs::Reading::expect, crate::specs::Reading::one))]
pub fn expect(tokens: &mut Cursor<'_>, what: Ahead) -> Result<Span, Stopped>
    ensures { Reads (reading.expect what tokens.old) result tokens.new }
{
    match (tokens.peek(), tokens.is_clean()) {
        (Some(token), true) if Ahead::of(token).is(what) => {
            let span = token.span;
            tokens.skip();
            Ok(span)
        }
        _ => Err(Stopped::Unexpected),
    }
}

/// A name.
#[tactic(auto, unfolding(crate::specs::Rules::name, crate::specs::Reading::one, crate::specs::Tokens::ident_of))]
pub fn name(alloc: Global, tokens: &mut Cursor<'_>) -> Result<Ident, Stopped>
    ensures { Reads (spec.name tokens.old) result tokens.new }
{
    match (tokens.peek(), tokens.is_clean()) {
        (Some(token), true) => match &token.kind {
            TokenKind::Id(name) => {
                let name = name.copy(alloc)?;
                let span = token.span;
                tokens.skip();
                Ok(Ident { name, span })
            }
            _ => Err(Stopped::Unexpected),
        },
        _ => Err(Stopped::Unexpected),
    }
}

/// An operator between two operands.
#[tactic(auto, unfolding(crate::specs::Rules::operator, crate::specs::Reading::one, crate::specs::Tokens::operator_of))]
pub fn operator(alloc: Global, tokens: &mut Cursor<'_>) -> Result<Operator, Stopped>
    ensures { Reads (spec.operator tokens.old) result tokens.new }
{
    match (tokens.peek(), tokens.is_clean()) {
        (Some(token), true) => match &token.kind {
            TokenKind::Id(name) => {
                let name = name.copy(alloc)?;
                let span = token.span;
                tokens.skip();
                Ok(Operator::Id(Ident { name, span }))
            }
            TokenKind::Op(name) => {
                let name = name.copy(alloc)?;
                let span = token.span;
                tokens.skip();
                Ok(Operator::Op(Ident { name, span }))
            }
            _ => Err(Stopped::Unexpected),
        },
        _ => Err(Stopped::Unexpected),
    }
}

/// `;` or a line end.
#[tactic(auto, unfolding(crate::specs::Rules::separator, crate::specs::Reading::one, crate::specs::Tokens::separator_of))]
pub fn separator(tokens: &mut Cursor<'_>) -> Result<(), Stopped>
    ensures { Reads (spec.separator tokens.old) result tokens.new }
{
    match (tokens.peek(), tokens.is_clean()) {
        (Some(token), true) => {
            let next = Ahead::of(token);
            if next.is(Ahead::Semicolon) || next.is(Ahead::Newline) {
                tokens.skip();
                Ok(())
            } else {
                Err(Stopped::Unexpected)
            }
        }
        _ => Err(Stopped::Unexpected),
    }
}

/// `val` or `var`.
#[tactic(auto, unfolding(crate::specs::Rules::binding, crate::specs::Reading::one, crate::specs::Tokens::binding_of))]
pub fn binding(tokens: &mut Cursor<'_>) -> Result<(Binding, Span), Stopped>
    ensures { Reads (spec.binding tokens.old) result tokens.new }
{
    match (tokens.peek(), tokens.is_clean()) {
        (Some(token), true) => {
            let span = token.span;
            match Ahead::of(token) {
                Ahead::Val => {
                    tokens.skip();
                    Ok((Binding::Val, span))
                }
                Ahead::Var => {
                    tokens.skip();
                    Ok((Binding::Var, span))
                }
                _ => Err(Stopped::Unexpected),
            }
        }
        _ => Err(Stopped::Unexpected),
    }
}

// An operator before its operand, by the bytes of its text.
fn sign_text(text: &[u8], span: Span) -> Option<(Sign, Span)>
    ensures { result ≡ values.sign_text text.now span }
{
    match text {
        [byte] => match *byte {
            b'-' => Some((Sign::Minus, span)),
            b'+' => Some((Sign::Plus, span)),
            b'!' => Some((Sign::Not, span)),
            b'~' => Some((Sign::Complement, span)),
            _ => None,
        },
        _ => None,
    }
}

/// An operator before its operand.
#[tactic(auto, unfolding(crate::specs::Rules::sign, crate::specs::Reading::one, crate::specs::Tokens::sign_of))]
pub fn sign(tokens: &mut Cursor<'_>) -> Result<(Sign, Span), Stopped>
    ensures { Reads (spec.sign tokens.old) result tokens.new }
{
    match (tokens.peek(), tokens.is_clean()) {
        (Some(token), true) => match &token.kind {
            TokenKind::Op(text) => match sign_text(text.as_str().as_bytes(), token.span) {
                Some(found) => {
                    tokens.skip();
                    Ok(found)
                }
                None => Err(Stopped::Unexpected),
            },
            _ => Err(Stopped::Unexpected),
        },
        _ => Err(Stopped::Unexpected),
    }
}

// The literal of this token, if it is one.
fn literal_of(alloc: Global, kind: &TokenKind, span: Span) -> Result<Option<Literal>, Stopped>
    ensures found { IfOk result (λ found. found ≡ values.literal_by kind.now span) }
    ensures memory { IfErr result (λ e. e ≡ Memory) }
{
    match kind {
        TokenKind::Number(value) => Ok(Some(Literal::Number(*value, span))),
        TokenKind::Text(content) => Ok(Some(Literal::Text(content.copy(alloc)?, span))),
        other => Ok(match other.shape() {
            Shape::True => Some(Literal::True(span)),
            Shape::False => Some(Literal::False(span)),
            Shape::Null => Some(Literal::Null(span)),
            _ => None,
        }),
    }
}

/// A literal.
#[tactic(auto, unfolding(crate::specs::Rules::literal, crate::specs::Reading::one, crate::specs::Tokens::literal_of))]
pub fn literal(alloc: Global, tokens: &mut Cursor<'_>) -> Result<Literal, Stopped>
    ensures { Reads (spec.literal tokens.old) result tokens.new }
{
    match (tokens.peek(), tokens.is_clean()) {
        (Some(token), true) => match literal_of(alloc, &token.kind, token.span)? {
            Some(found) => {
                tokens.skip();
                Ok(found)
            }
            None => Err(Stopped::Unexpected),
        },
        _ => Err(Stopped::Unexpected),
    }
}

/// As many line ends as there are.
pub fn lines(tokens: &mut Cursor<'_>) -> Result<(), Stopped>
    ensures { Reads (spec.lines tokens.old) result tokens.new }
{
    'turn: while tokens.offers(Ahead::Newline) {
        expect(tokens, Ahead::Newline)?;
    }
    Ok(())
}
