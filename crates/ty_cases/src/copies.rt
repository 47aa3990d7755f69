//! Questions on copies and on nodes that are made anew.

use crate::answers::yes_or_no;
use sqlite_items::{Boxed, Items};
use std::alloc::Global;
use ty_prog::{Expr, NoMemory, Node, Part, copy, rebuild};
use ty_text::{Parts, ProgramFault, Source};
use ty_walk::{same_program, same_tree};

// `copy`: whether a copy of the program equals it.
pub(crate) fn copied(alloc: Global, source: &Source) -> Result<String, ProgramFault> {
    let made = copy(alloc, &source.program)?;
    yes_or_no(alloc, same_program(&made, &source.program))
}

// `rebuild EXPRESSION`: whether `SetLocal(1, Null)` over `Local(3)` is the expression.
pub(crate) fn rebuilt(alloc: Global, parts: &mut Parts) -> Result<String, ProgramFault> {
    let wanted = parts.expr();
    let made = over_another(alloc)?;
    yes_or_no(alloc, same_tree(Node::Expr(&made), Node::Expr(&wanted)))
}

fn over_another(alloc: Global) -> Result<Expr, NoMemory> {
    let e = Expr::SetLocal(1, Boxed::new(alloc, Expr::Null)?);
    let mut children = Items::new(alloc);
    children.push(Part::Expr(Expr::Local(3)))?;
    rebuild(alloc, &e, children)
}
