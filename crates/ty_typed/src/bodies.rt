//! Whether a body is typed where its locals have some types.

ghost use Rattle.std.specs.Prelude.{◌≡◌, ◌↔◌, IsTrue, length, take};
ghost use Rattle.ty_prog.specs.Node.{tree_of};
ghost use Rattle.ty_prog.specs.Tree.{ConstructorTree};
ghost use Rattle.ty_walk.specs.Everywhere.{Everywhere};
ghost use Rattle.ty_typed.specs.Members.{param_types, types_of_fields};
ghost use Rattle.ty_typed.specs.NodeTyped.{node_typed};
ghost use Rattle.ty_typed.specs.Bodies.{BodyTyped, Gives};
ghost use Rattle.ty_typed.specs.Parts.{Begins};
ghost use Rattle.ty_typed.specs.Scopes.{within};

use crate::expressions::expr_fits;
use crate::member_types::next_type;
use crate::scope::Scope;
use crate::typed_node::node_typed;
use ty_prog::{Class, Expr, Field, Node, Ty};
use ty_walk::{Rule, holds_everywhere};

/// The rule that each part of a node has the type that its place wants.
#[derive(Clone, Copy)]
struct Typed<'a> {
    scope: Scope<'a>,
}

impl Rule for Typed<'_> {
    ghost use Rattle.ty_typed.specs.NodeTyped.{node_typed};
    ghost use Rattle.ty_typed.specs.Scopes.{within};

    ghost holds = { λ rule. within rule.scope node_typed };

    fn holds(&self, node: Node<'_>) -> bool {
        node_typed(self.scope, node)
    }
}

// Whether each node of a tree is typed.
fn nodes_typed(scope: Scope<'_>, root: Node<'_>) -> bool
    ensures { IsTrue result ↔ Everywhere (λ node. IsTrue (within scope.entry node_typed node)) (tree_of root.entry) }
{
    holds_everywhere(&Typed { scope }, root)
}

/// Whether the nodes of a body are typed, and its locals are so many, and begin with those given.
pub(crate) fn body_typed(scope: Scope<'_>, given: &[Ty], count: u32, root: Node<'_>) -> bool
    ensures { IsTrue result ↔ BodyTyped scope.entry.program.now scope.entry.this given.now count scope.entry.locals.now (tree_of root.entry) }
{
    if !(is_count(scope.locals, count) && begin_with(scope.locals, given)) {
        return false;
    }
    nodes_typed(scope, root)
}

// Whether there are so many locals.
fn is_count(locals: &[Ty], count: u32) -> bool
    ensures { IsTrue result ↔ (length locals.now ≡ count) }
{
    locals.len() == count as usize
}

// Whether locals begin with the given types.
fn begin_with(locals: &[Ty], given: &[Ty]) -> bool
    ensures { IsTrue result ↔ (take (length given.now) locals.now ≡ given.now) }
{
    begins(locals, given)
}

// The same, by one type after the other.
fn begins(locals: &[Ty], given: &[Ty]) -> bool
    ensures { IsTrue result ↔ Begins given.now locals.now }
{
    let mut rest = locals;
    for ty in given {
        match rest.split_first() {
            Some((local, behind)) => {
                if !is_same(*local, *ty) {
                    return false;
                }
                rest = behind;
            }
            None => return false,
        }
    }
    true
}

/// Whether the nodes of a constructor are typed, and its locals are so many, and begin with the parameters of the class.
pub(crate) fn constructor_typed(scope: Scope<'_>, class: &Class) -> bool
    ensures { IsTrue result ↔ BodyTyped scope.entry.program.now scope.entry.this (param_types class.now) class.now.locals scope.entry.locals.now (ConstructorTree class.now) }
{
    if !(is_count(scope.locals, class.locals) && begin_with_params(scope.locals, class)) {
        return false;
    }
    nodes_typed(scope, Node::Constructor(class))
}

// Whether the locals of a constructor begin with the types of the class parameters.
fn begin_with_params(locals: &[Ty], class: &Class) -> bool
    ensures { IsTrue result ↔ (take (length (param_types class.now)) locals.now ≡ param_types class.now) }
{
    begins_with_fields(locals, class.fields.as_slice(), class.params.as_slice())
}

// The same, by the fields that the parameters are.
fn begins_with_fields(locals: &[Ty], fields: &[Field], params: &[u32]) -> bool
    ensures { IsTrue result ↔ Begins (types_of_fields fields.now params.now) locals.now }
{
    let mut given = params;
    let mut rest = locals;
    while let Some((ty, more)) = next_type(fields, given) {
        match rest.split_first() {
            Some((local, behind)) => {
                if !is_same(*local, ty) {
                    return false;
                }
                rest = behind;
                given = more;
            }
            None => return false,
        }
    }
    true
}

// Whether two types are one.
fn is_same(one: Ty, other: Ty) -> bool
    ensures { IsTrue result ↔ (one ≡ other) }
{
    one == other
}

/// Whether a body is typed and gives a value of a type.
pub(crate) fn gives(scope: Scope<'_>, given: &[Ty], count: u32, body: &Expr, wanted: Ty) -> bool
    ensures { IsTrue result ↔ Gives scope.entry.program.now scope.entry.this given.now count scope.entry.locals.now body.now wanted }
{
    if !expr_fits(scope, body, wanted) {
        return false;
    }
    body_typed(scope, given, count, Node::Expr(body))
}
