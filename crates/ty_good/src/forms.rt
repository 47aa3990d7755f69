//! Which forms a program may have after so many of the lowerings.

ghost use Rattle.std.specs.Prelude.{◌≡◌, ◌↔◌, IsTrue};
ghost use Rattle.std.specs.List.{All};
ghost use Rattle.ty_prog.specs.Tree.{ExprTree};
ghost use Rattle.ty_prog.specs.Node.{tree_of};
ghost use Rattle.ty_good.specs.Forms.{may_stand, removed_by, made_by, test_made_by, prim_made_by, class_may_stand, has_static, has_cases, HasForms};

use ty_conform::is_trait_kind;
use ty_prog::{Catch, Class, Expr, Node, PrimOp, Program, Tested};
use ty_walk::{Rule, holds_in_program};

// Whether a node may stand in a program after k lowerings.
fn may_stand(k: u32, node: Node<'_>) -> bool
    ensures { result ≡ may_stand k (tree_of node.entry) }
{
    removed_by(node) > k && made_by(node) <= k
}

// The lowering that removes a form, counted from 1; 5 where none does.
fn removed_by(node: Node<'_>) -> u32
    ensures { result ≡ removed_by (tree_of node.entry) }
{
    match node {
        Node::Expr(e) => expr_removed_by(e),
        Node::Case(_) | Node::Pattern(_) => 3,
        Node::Constructor(_) | Node::Stage(_) => 5,
    }
}

// The lowering that removes the form of an expression, counted from 1; 5 where none does.
fn expr_removed_by(e: &Expr) -> u32
    ensures { result ≡ removed_by (ExprTree e.now) }
{
    match e {
        Expr::ObjectGet(_) => 1,
        Expr::SuperCall { .. } => 2,
        Expr::Match { .. } => 3,
        Expr::Try { handler, .. } => { if has_cases(handler) { 3 } else { 5 } }
        Expr::LazyGet { .. } => 4,
        _ => 5,
    }
}

fn has_cases(handler: &Option<Catch>) -> bool
    ensures { result ≡ has_cases handler.now }
{
    matches!(handler, Some(Catch::Cases(_)))
}

// The lowering that makes a form; 0 where it is no low form.
fn made_by(node: Node<'_>) -> u32
    ensures { result ≡ made_by (tree_of node.entry) }
{
    match node {
        Node::Expr(e) => expr_made_by(e),
        _ => 0,
    }
}

// The lowering that makes the form of an expression; 0 where it is no low form.
fn expr_made_by(e: &Expr) -> u32
    ensures { result ≡ made_by (ExprTree e.now) }
{
    match e {
        Expr::ModuleGet(_) | Expr::SetModule(..) => 1,
        Expr::StaticCall { .. } => 2,
        Expr::Test { of: _, test } => test_made_by(*test),
        Expr::Cas { .. }
        | Expr::NewLatch(_)
        | Expr::OwnedHere(_)
        | Expr::Await(_)
        | Expr::CountDown(_) => 4,
        Expr::Prim { op, args: _ } => prim_made_by(*op),
        _ => 0,
    }
}

fn test_made_by(test: Tested) -> u32
    ensures { result ≡ test_made_by test }
{
    match test {
        Tested::OfType(_) => 3,
        Tested::Latch | Tested::Evaluating => 4,
    }
}

fn prim_made_by(op: PrimOp) -> u32
    ensures { result ≡ prim_made_by op }
{
    match op {
        PrimOp::Evaluating | PrimOp::NullValue => 4,
        _ => 0,
    }
}

// Whether a class may stand in a program after k lowerings.
fn class_may_stand(k: u32, class: &Class) -> bool
    ensures { result ≡ class_may_stand k class.now }
{
    (!has_static(class) || (k >= 2 && is_trait_kind(class.kind)))
        && (k < 4 || class.cells.is_empty())
}

fn has_static(class: &Class) -> bool
    ensures { result ≡ has_static class.now }
{
    class
        .methods
        .as_slice()
        .iter()
        .any(|method| method.is_static)
}

// The rule that a node may stand in a program after k lowerings.
#[derive(Clone, Copy)]
struct Standing {
    k: u32,
}

impl Rule for Standing {
    ghost use Rattle.ty_good.specs.Forms.{may_stand};

    ghost holds = { λ rule. may_stand rule.k };

    fn holds(&self, node: Node<'_>) -> bool {
        may_stand(self.k, node)
    }
}

/// Whether a program has no form that the first k lowerings remove, and no low form that none of them makes; k is from
/// 0 to 4.
pub fn has_forms(k: u32, p: &Program) -> bool
    ensures { IsTrue result ↔ HasForms k p.now }
{
    classes_may_stand(k, p.classes.as_slice()) && holds_in_program(&Standing { k }, p)
}

// Whether the kinds of some classes may stand after k lowerings.
fn classes_may_stand(k: u32, classes: &[Class]) -> bool
    ensures { IsTrue result ↔ All (λ class. IsTrue (class_may_stand k class)) classes.now }
{
    classes.iter().all(|class| class_may_stand(k, class))
}
