//! Questions on trees.

use crate::answers::yes_or_no;
use std::alloc::Global;
use ty_flow::are_set_first;
use ty_prog::{Class, Node, node_at};
use ty_text::{Parts, ProgramFault, Source, Wanted};
use ty_walk::same_tree;

// `set-first GIVEN COUNT EXPRESSION`.
pub(crate) fn are_set(alloc: Global, parts: &mut Parts) -> Result<String, ProgramFault> {
    let given = parts.number();
    let count = parts.number();
    let e = parts.expr();
    yes_or_no(alloc, are_set_first(given as usize, count, Node::Expr(&e)))
}

// `same EXPRESSION EXPRESSION`.
pub(crate) fn are_same(alloc: Global, parts: &mut Parts) -> Result<String, ProgramFault> {
    let one = parts.expr();
    let other = parts.expr();
    yes_or_no(alloc, same_tree(Node::Expr(&one), Node::Expr(&other)))
}

// The class that the next word names, which must be there.
fn class<'a>(source: &'a Source, parts: &mut Parts) -> Result<&'a Class, ProgramFault> {
    let number = parts.class(&source.names);
    match source.program.classes.get(number as usize) {
        Some(class) => Ok(class),
        None => Err(parts.expected(Wanted::Name)),
    }
}

// `at CLASS NUMBER..`: the node at this place of the constructor.
pub(crate) fn node(
    alloc: Global,
    source: &Source,
    parts: &mut Parts,
) -> Result<String, ProgramFault> {
    let class = class(source, parts)?;
    let place = parts.classes_left(&source.names)?;
    match node_at(Node::Constructor(class), place.as_slice()) {
        Some(Node::Expr(e)) => Ok(format!(in alloc; "{e:?}")?),
        Some(Node::Pattern(pattern)) => Ok(format!(in alloc; "{pattern:?}")?),
        Some(Node::Stage(stage)) => Ok(format!(in alloc; "{stage:?}")?),
        Some(Node::Case(_)) => Ok(String::from_str(alloc, "a case")?),
        Some(Node::Constructor(_)) => Ok(String::from_str(alloc, "the constructor")?),
        None => Ok(String::from_str(alloc, "none")?),
    }
}
