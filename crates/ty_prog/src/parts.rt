//! Children taken off a stack of parts.

ghost use Rattle.std.specs.Prelude.{◌≡◌, map, take, drop, option_map, IfOk, OnOk};
ghost use Rattle.ty_prog.specs.Shape.{to_one, handler_form};
ghost use Rattle.ty_prog.specs.Part.{part_tree, in_order};
ghost use Rattle.ty_prog.specs.Rebuilt.{as_expr, as_case, as_pattern, first_expr, first_pattern, optional_rebuilt, handler_rebuilt, handler_len};

use crate::case::Case;
use crate::catch::Catch;
use crate::expr::Expr;
use crate::part::Part;
use crate::pattern::Pattern;
use sqlite_items::{Boxed, Items};
use std::alloc::{AllocError, Global};

fn as_expr(part: Part) -> Expr
    ensures { result ≡ as_expr (part_tree part) }
{
    match part {
        Part::Expr(e) => e,
        _ => Expr::Unit,
    }
}

fn as_case(part: Part) -> Case
    ensures { result ≡ as_case (part_tree part) }
{
    match part {
        Part::Case(c) => c,
        _ => Case {
            pattern: Pattern::Any,
            guard: None,
            body: Expr::Unit,
        },
    }
}

fn as_pattern(part: Part) -> Pattern
    ensures { result ≡ as_pattern (part_tree part) }
{
    match part {
        Part::Pattern(p) => p,
        _ => Pattern::Any,
    }
}

/// The next part, as an expression.
#[tactic(auto, using(crate::proofs::Stacks::popped))]
pub(crate) fn first_expr(left: &mut Items<Part>) -> Expr
    ensures first { result ≡ first_expr (in_order left.old) }
    ensures rest { in_order left.new ≡ drop 1 (in_order left.old) }
{
    match left.pop() {
        Some(part) => as_expr(part),
        None => Expr::Unit,
    }
}

/// The next part, as a pattern.
#[tactic(auto, using(crate::proofs::Stacks::popped))]
pub(crate) fn first_pattern(left: &mut Items<Part>) -> Pattern
    ensures first { result ≡ first_pattern (in_order left.old) }
    ensures rest { in_order left.new ≡ drop 1 (in_order left.old) }
{
    match left.pop() {
        Some(part) => as_pattern(part),
        None => Pattern::Any,
    }
}

/// The next part, as a boxed expression.
pub(crate) fn boxed(alloc: Global, left: &mut Items<Part>) -> Result<Boxed<Expr>, AllocError>
    ensures first { IfOk result (λ made. made ≡ first_expr (in_order left.old)) }
    ensures rest { in_order left.new ≡ drop 1 (in_order left.old) }
{
    let e = first_expr(left);
    Boxed::new(alloc, e)
}

/// The next part where there was an expression, else none.
pub(crate) fn optional_rebuilt(
    alloc: Global,
    e: &Option<Boxed<Expr>>,
    left: &mut Items<Part>,
) -> Result<Option<Boxed<Expr>>, AllocError>
    ensures { IfOk result (λ made. made ≡ optional_rebuilt (option_map to_one e.now) (in_order left.old)) }
{
    match e {
        None => Ok(None),
        Some(_) => Ok(Some(boxed(alloc, left)?)),
    }
}

/// All parts that are left, as expressions.
#[tactic(auto, using(crate::proofs::Stacks::one_more, crate::proofs::Stacks::one_fewer))]
pub(crate) fn exprs(alloc: Global, left: &mut Items<Part>) -> Result<Items<Expr>, AllocError>
    ensures { IfOk result (λ made. made ≡ map as_expr (in_order left.old)) }
{
    let mut made = Items::new(alloc);
    while let Some(part) = left.pop() {
        made.push(as_expr(part))?;
    }
    Ok(made)
}

/// All parts that are left, as patterns.
#[tactic(auto, using(crate::proofs::Stacks::one_more, crate::proofs::Stacks::one_fewer))]
pub(crate) fn patterns(alloc: Global, left: &mut Items<Part>) -> Result<Items<Pattern>, AllocError>
    ensures { IfOk result (λ made. made ≡ map as_pattern (in_order left.old)) }
{
    let mut made = Items::new(alloc);
    while let Some(part) = left.pop() {
        made.push(as_pattern(part))?;
    }
    Ok(made)
}

/// So many of the next parts, as cases.
pub(crate) fn cases(
    alloc: Global,
    count: usize,
    left: &mut Items<Part>,
) -> Result<Items<Case>, AllocError>
    ensures taken { IfOk result (λ made. made ≡ map as_case (take count (in_order left.old))) }
    ensures rest { OnOk result (in_order left.new ≡ drop count (in_order left.old)) }
{
    let mut made = Items::new(alloc);
    for _ in 0..count {
        match left.pop() {
            Some(part) => made.push(as_case(part))?,
            None => break,
        }
    }
    Ok(made)
}

/// A handler where there was one, from the next parts.
pub(crate) fn handler_rebuilt(
    alloc: Global,
    handler: &Option<Catch>,
    left: &mut Items<Part>,
) -> Result<Option<Catch>, AllocError>
    ensures made { IfOk result (λ made. made ≡ handler_rebuilt (option_map handler_form handler.now) (in_order left.old)) }
    ensures rest { OnOk result (in_order left.new ≡ drop (handler_len (option_map handler_form handler.now)) (in_order left.old)) }
{
    match handler {
        None => Ok(None),
        Some(Catch::Cases(branches)) => Ok(Some(Catch::Cases(cases(alloc, branches.len(), left)?))),
        Some(Catch::Any { local, body: _ }) => Ok(Some(Catch::Any {
            local: *local,
            body: boxed(alloc, left)?,
        })),
    }
}
