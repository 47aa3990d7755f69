//! How many operands a node keeps.

ghost use Rattle.std.specs.Prelude.{◌≡◌, ◌+◌, ◌<◌, ◌^◌, length, option_map};
ghost use Rattle.ty_prog.specs.Node.{tree_of};
ghost use Rattle.ty_prog.specs.Shape.{shape, handler_form, pattern_form};
ghost use Rattle.ty_prog.specs.Tree.{ExprTree};
ghost use Rattle.sm_rule.specs.Moves.{kept, try_kept, handler_len, handler_kept, super_kept, is_super_arg, pattern_kept};
ghost use Rattle.ty_prog.specs.declared.pattern.Pattern.{out-Pattern};

use ty_prog::{Catch, Class, Expr, Kind, Node, Pattern};

/// How many children a handler has.
pub(crate) fn handler_len(handler: &Option<Catch>) -> usize
    ensures { result ≡ handler_len (option_map handler_form handler.now) }
{
    match handler {
        None => 0,
        Some(Catch::Cases(cases)) => cases.len(),
        Some(Catch::Any { .. }) => 1,
    }
}

// The exception, where a handler has cases.
fn handler_kept(handler: &Option<Catch>) -> usize
    ensures { result ≡ handler_kept (option_map handler_form handler.now) }
{
    match handler {
        Some(Catch::Cases(_)) => 1,
        _ => 0,
    }
}

// How many values a `try` keeps for its child.
fn try_kept(handler: &Option<Catch>, child: usize) -> usize
    ensures { result ≡ try_kept (option_map handler_form handler.now) child }
{
    if child == 0 {
        0
    } else if child - 1 < handler_len(handler) {
        handler_kept(handler)
    } else {
        2
    }
}

// How many operands an expression keeps for its child.
fn expr_kept(e: &Expr, child: usize) -> usize
    requires { child < 2 ^ 32 }
    ensures { result ≡ kept (shape (ExprTree e.now)) child }
{
    match e {
        Expr::Put { .. }
        | Expr::Call { .. }
        | Expr::Prim { .. }
        | Expr::Equal(..)
        | Expr::SuperCall { .. }
        | Expr::Cas { .. }
        | Expr::StaticCall { .. } => child,
        Expr::New { class: _, args } => { if args.len() == 0 { 0 } else { child + 1 } }
        Expr::Try {
            body: _,
            handler,
            ..
        } => try_kept(handler, child),
        Expr::Match { .. } => { if child == 0 { 0 } else { 1 } }
        _ => 0,
    }
}

// How many children of a constructor stand before the call of the superclass constructor.
pub(crate) fn before_super(class: &Class) -> u128
    ensures { result ≡ length class.now.params + length class.now.super_args }
{
    class.params.len() as u128 + class.super_args.len() as u128
}

/// Whether this child of a constructor is an argument of the superclass constructor.
pub(crate) fn is_super_arg(class: &Class, child: usize) -> bool
    ensures { result ≡ is_super_arg class.now class.now.kind child }
{
    match class.kind {
        Kind::Trait => false,
        _ => class.params.len() <= child && (child as u128) < before_super(class),
    }
}

// How many arguments of the superclass constructor are kept.
fn super_kept(class: &Class, child: usize) -> usize
    ensures { result ≡ super_kept class.now class.now.kind child }
{
    match class.kind {
        Kind::Trait => 0,
        _ => {
            if (child as u128) <= before_super(class) {
                child.saturating_sub(class.params.len())
            } else {
                0
            }
        }
    }
}

/// How many operands a node keeps while its child with this number is evaluated.
pub fn kept(node: Node<'_>, child: u32) -> usize
    ensures { result ≡ kept (shape (tree_of node.entry)) child }
{
    match node {
        Node::Expr(e) => expr_kept(e, child as usize),
        Node::Case(_) => { if child == 0 { 1 } else { 0 } }
        Node::Pattern(p) => pattern_kept(p),
        Node::Constructor(class) => super_kept(class, child as usize),
        Node::Stage(_) => 0,
    }
}

// How many operands a pattern keeps for its child.
fn pattern_kept(p: &Pattern) -> usize
    ensures { result ≡ pattern_kept (pattern_form (out-Pattern p.now)) }
{
    match p {
        Pattern::Make { .. } => 2,
        _ => 1,
    }
}
