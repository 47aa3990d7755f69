//! Which tokens open and close regions, and which can end or begin a statement.

ghost use Rattle.std.specs.Prelude.{◌≡◌, OnOk};
ghost use Rattle.sl_newline.specs.Regions as spec;

use crate::region::Region;
use crate::stack::Stack;
use sl_ast::Shape;
use std::alloc::AllocError;

/// The region that a token of this shape opens, by the next one.
fn opens(shape: Shape, next: Option<Shape>) -> Option<Region>
    ensures { result ≡ spec.opens_by shape next }
{
    match shape {
        Shape::OpenParen => Some(Region::Round),
        Shape::OpenBracket => Some(Region::Square),
        Shape::OpenBrace => Some(Region::Brace),
        Shape::Case => {
            if defines(next) {
                None
            } else {
                Some(Region::Case)
            }
        }
        _ => None,
    }
}

// Whether a `case` before this stands in a definition.
fn defines(next: Option<Shape>) -> bool
    ensures { result ≡ spec.defines next }
{
    matches!(next, Some(Shape::Class | Shape::Object))
}

/// Whether a token of this shape closes the region.
fn closes(region: Option<Region>, shape: Shape) -> bool
    ensures { result ≡ spec.closes_by region shape }
{
    match region {
        None => false,
        Some(Region::Round) => shape == Shape::CloseParen,
        Some(Region::Square) => shape == Shape::CloseBracket,
        Some(Region::Brace) => shape == Shape::CloseBrace,
        Some(Region::Case) => shape == Shape::Arrow,
    }
}

/// Whether newlines are enabled in the region.
pub fn enabled(region: Option<Region>) -> bool
    ensures { result ≡ spec.enabled region }
{
    matches!(region, None | Some(Region::Brace))
}

/// Whether a token of this shape can end a statement.
pub fn can_end(shape: Shape) -> bool
    ensures { result ≡ spec.can_end shape }
{
    matches!(
        shape,
        Shape::Id
            | Shape::Op
            | Shape::Number
            | Shape::Text
            | Shape::This
            | Shape::Null
            | Shape::True
            | Shape::False
            | Shape::Return
            | Shape::TypeWord
            | Shape::Underscore
            | Shape::CloseParen
            | Shape::CloseBracket
            | Shape::CloseBrace
    )
}

/// Whether a token of this shape can begin a statement, by the next one.
pub fn can_begin(shape: Shape, next: Option<Shape>) -> bool
    ensures { result ≡ spec.can_begin shape next }
{
    match shape {
        Shape::Catch
        | Shape::Else
        | Shape::Extends
        | Shape::Finally
        | Shape::ForSome
        | Shape::Match
        | Shape::With
        | Shape::Yield
        | Shape::Comma
        | Shape::Dot
        | Shape::Semicolon
        | Shape::Colon
        | Shape::Equals
        | Shape::Arrow
        | Shape::LeftArrow
        | Shape::UpperBound
        | Shape::ViewBound
        | Shape::LowerBound
        | Shape::Hash
        | Shape::OpenBracket
        | Shape::CloseParen
        | Shape::CloseBracket
        | Shape::CloseBrace => false,
        Shape::Case => defines(next),
        _ => true,
    }
}

/// Goes past a token.
pub fn step(regions: &mut Stack, shape: Shape, next: Option<Shape>) -> Result<(), AllocError>
    ensures ok { OnOk result (regions.new ≡ spec.step_by regions.old shape next) }
{
    if closes(regions.front(), shape) {
        regions.pop();
    } else if let Some(region) = opens(shape, next) {
        regions.push(region)?;
    }
    Ok(())
}
