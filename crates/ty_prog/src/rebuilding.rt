//! Nodes made anew: of the shape of another, with given children.

ghost use Rattle.std.specs.Prelude.{◌≡◌, map, reverse, IfOk};
ghost use Rattle.ty_prog.specs.Tree.{ExprTree, CaseTree, PatternTree, children};
ghost use Rattle.ty_prog.specs.Shape.{shape};
ghost use Rattle.ty_prog.specs.Part.{part_tree, kinds};

use crate::NoMemory;
use crate::case::Case;
use crate::expr::Expr;
use crate::part::Part;
use crate::pattern::Pattern;
use crate::rebuilt::{case_rebuilt, expr_rebuilt, pattern_rebuilt};
use sqlite_items::Items;
use std::alloc::{AllocError, Global};

/// An expression of the shape of another with these children, which are of the same kinds as the other's.
/// Errors: want of memory.
pub fn rebuild(alloc: Global, e: &Expr, parts: Items<Part>) -> Result<Expr, NoMemory>
    requires { kinds (map part_tree parts) ≡ kinds (children (ExprTree e.now)) }
    ensures { IfOk result (λ made. (shape (ExprTree made) ≡ shape (ExprTree e.now)) × (children (ExprTree made) ≡ map part_tree parts)) }
{
    let mut left = turned(alloc, parts)?;
    Ok(expr_rebuilt(alloc, e, &mut left)?)
}

/// A case of the shape of another with these children, which are of the same kinds as the other's.
/// Errors: want of memory.
#[tactic(auto, using(crate::proofs::Fitting::case_made))]
pub fn rebuild_case(alloc: Global, c: &Case, parts: Items<Part>) -> Result<Case, NoMemory>
    requires { kinds (map part_tree parts) ≡ kinds (children (CaseTree c.now)) }
    ensures { IfOk result (λ made. (shape (CaseTree made) ≡ shape (CaseTree c.now)) × (children (CaseTree made) ≡ map part_tree parts)) }
{
    let mut left = turned(alloc, parts)?;
    Ok(case_rebuilt(c, &mut left))
}

/// A pattern of the shape of another with these children, which are of the same kinds as the other's.
/// Errors: want of memory.
pub fn rebuild_pattern(alloc: Global, p: &Pattern, parts: Items<Part>) -> Result<Pattern, NoMemory>
    requires { kinds (map part_tree parts) ≡ kinds (children (PatternTree p.now)) }
    ensures { IfOk result (λ made. (shape (PatternTree made) ≡ shape (PatternTree p.now)) × (children (PatternTree made) ≡ map part_tree parts)) }
{
    let mut left = turned(alloc, parts)?;
    Ok(pattern_rebuilt(alloc, p, &mut left)?)
}

// The parts as a stack, the first one on top.
#[tactic(auto, using(crate::proofs::Stacks::turned_more, crate::proofs::Stacks::one_fewer))]
fn turned(alloc: Global, parts: Items<Part>) -> Result<Items<Part>, AllocError>
    ensures { IfOk result (λ made. reverse made ≡ parts) }
{
    let mut left = parts;
    let mut made = Items::new(alloc);
    while let Some(part) = left.pop() {
        made.push(part)?;
    }
    Ok(made)
}
