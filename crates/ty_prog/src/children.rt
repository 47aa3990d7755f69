//! The children of a node, in order of evaluation.

ghost use Rattle.std.specs.Prelude.{◌≡◌, ◌<◌, ◌^◌, [], ◌∷◌, ◌++◌, length, slice_get, map, option_map, option_copied, option_to_list, OnSome};
ghost use Rattle.ty_prog.specs.Tree.{ExprTree, CaseTree, PatternTree, ConstructorTree, children, handler_children, or_none, behind_params, behind_superclass, mixins_then, sets_module};
ghost use Rattle.ty_prog.specs.Node.{tree_of};

use crate::case::Case;
use crate::catch::Catch;
use crate::class::Class;
use crate::expr::Expr;
use crate::kind::Kind;
use crate::node::Node;
use crate::pattern::Pattern;
use crate::stage::Stage;
use sqlite_items::{Boxed, Items};

/// The child of an expression with this number.
pub(crate) fn expr_child<'a>(e: &'a Expr, i: u128) -> Option<Node<'a>>
    ensures value { option_map tree_of result ≡ slice_get (children (ExprTree e.now)) i }
    ensures within { OnSome result (i < 2 ^ 65) }
{
    match e {
        Expr::Int(_)
        | Expr::Long(_)
        | Expr::Bool(_)
        | Expr::Text(_)
        | Expr::Null
        | Expr::Unit
        | Expr::Local(_)
        | Expr::This
        | Expr::ObjectGet(_)
        | Expr::ModuleGet(_) => None,
        Expr::SetLocal(_, of)
        | Expr::Get { of, .. }
        | Expr::Convert { to: _, of }
        | Expr::TextOf(of)
        | Expr::Throw(of)
        | Expr::Start(of)
        | Expr::LazyGet { of, .. }
        | Expr::Test { of, .. }
        | Expr::NewLatch(of)
        | Expr::OwnedHere(of)
        | Expr::Await(of)
        | Expr::CountDown(of)
        | Expr::SetModule(_, of) => one(of, i),
        Expr::Put { of, value, .. } => two(of, value, i),
        Expr::Equal(a, b) | Expr::While(a, b) => two(a, b, i),
        Expr::If(a, b, c) => three(a, b, c, i),
        Expr::Cas { of, old, new, .. } => three(of, old, new, i),
        Expr::Println(of) => optional(of, i),
        Expr::Block(args)
        | Expr::New { class: _, args }
        | Expr::Prim { op: _, args }
        | Expr::SuperCall { args, .. }
        | Expr::StaticCall { args, .. } => exprs(args.as_slice(), i),
        Expr::Call { of, args, .. } => first_then(of, args, i),
        Expr::Match { of, cases } => of_match(of, cases, i),
        Expr::Try {
            body,
            handler,
            last,
        } => of_try(body, handler, last, i),
    }
}

fn one<'a>(e: &'a Boxed<Expr>, i: u128) -> Option<Node<'a>>
    ensures value { option_map tree_of result ≡ slice_get (ExprTree e.now ∷ []) i }
    ensures within { OnSome result (i < 3) }
{
    match i {
        0 => Some(Node::Expr(e.get())),
        _ => None,
    }
}

fn two<'a>(a: &'a Boxed<Expr>, b: &'a Boxed<Expr>, i: u128) -> Option<Node<'a>>
    ensures value { option_map tree_of result ≡ slice_get (ExprTree a.now ∷ ExprTree b.now ∷ []) i }
    ensures within { OnSome result (i < 3) }
{
    match i {
        0 => Some(Node::Expr(a.get())),
        1 => Some(Node::Expr(b.get())),
        _ => None,
    }
}

fn three<'a>(
    a: &'a Boxed<Expr>,
    b: &'a Boxed<Expr>,
    c: &'a Boxed<Expr>,
    i: u128,
) -> Option<Node<'a>>
    ensures value { option_map tree_of result ≡ slice_get (ExprTree a.now ∷ ExprTree b.now ∷ ExprTree c.now ∷ []) i }
    ensures within { OnSome result (i < 3) }
{
    match i {
        0 => Some(Node::Expr(a.get())),
        1 => Some(Node::Expr(b.get())),
        2 => Some(Node::Expr(c.get())),
        _ => None,
    }
}

fn optional<'a>(e: &'a Option<Boxed<Expr>>, i: u128) -> Option<Node<'a>>
    ensures value { option_map tree_of result ≡ slice_get (option_to_list (option_map ExprTree e.now)) i }
    ensures within { OnSome result (i < 3) }
{
    match e {
        Some(e) => one(e, i),
        None => None,
    }
}

// The item with this number.
fn item<T>(items: &[T], i: u128) -> Option<&T>
    ensures value { option_copied result ≡ slice_get items.now i }
    ensures within { OnSome result (i < 2 ^ 64) }
{
    if i < items.len() as u128 {
        Some(&items[i as usize])
    } else {
        None
    }
}

fn exprs<'a>(es: &'a [Expr], i: u128) -> Option<Node<'a>>
    ensures value { option_map tree_of result ≡ slice_get (map ExprTree es.now) i }
    ensures within { OnSome result (i < 2 ^ 64) }
{
    match item(es, i) {
        Some(e) => Some(Node::Expr(e)),
        None => None,
    }
}

fn cases<'a>(cases: &'a Items<Case>, i: u128) -> Option<Node<'a>>
    ensures value { option_map tree_of result ≡ slice_get (map CaseTree cases.now) i }
    ensures within { OnSome result (i < 2 ^ 64) }
{
    match item(cases.as_slice(), i) {
        Some(c) => Some(Node::Case(c)),
        None => None,
    }
}

fn patterns<'a>(parts: &'a Items<Pattern>, i: u128) -> Option<Node<'a>>
    ensures value { option_map tree_of result ≡ slice_get (map PatternTree parts.now) i }
    ensures within { OnSome result (i < 2 ^ 64) }
{
    match item(parts.as_slice(), i) {
        Some(p) => Some(Node::Pattern(p)),
        None => None,
    }
}

fn first_then<'a>(of: &'a Boxed<Expr>, args: &'a Items<Expr>, i: u128) -> Option<Node<'a>>
    ensures value { option_map tree_of result ≡ slice_get (ExprTree of.now ∷ map ExprTree args.now) i }
    ensures within { OnSome result (i < 2 ^ 65) }
{
    if i == 0 {
        Some(Node::Expr(of.get()))
    } else {
        exprs(args.as_slice(), i - 1)
    }
}

fn of_match<'a>(of: &'a Boxed<Expr>, branches: &'a Items<Case>, i: u128) -> Option<Node<'a>>
    ensures value { option_map tree_of result ≡ slice_get (ExprTree of.now ∷ map CaseTree branches.now) i }
    ensures within { OnSome result (i < 2 ^ 65) }
{
    if i == 0 {
        Some(Node::Expr(of.get()))
    } else {
        cases(branches, i - 1)
    }
}

fn of_handler<'a>(handler: &'a Option<Catch>, i: u128) -> Option<Node<'a>>
    ensures value { option_map tree_of result ≡ slice_get (or_none (option_map handler_children handler.now)) i }
    ensures within { OnSome result (i < 2 ^ 64) }
{
    match handler {
        None => None,
        Some(Catch::Cases(branches)) => cases(branches, i),
        Some(Catch::Any { local: _, body }) => one(body, i),
    }
}

// How many children a handler has.
fn handler_len(handler: &Option<Catch>) -> u128
    ensures value { result ≡ length (or_none (option_map handler_children handler.now)) }
    ensures within { result < 2 ^ 64 }
{
    match handler {
        None => 0,
        Some(Catch::Cases(cases)) => cases.len() as u128,
        Some(Catch::Any { .. }) => 1,
    }
}

fn of_try<'a>(
    body: &'a Boxed<Expr>,
    handler: &'a Option<Catch>,
    last: &'a Option<Boxed<Expr>>,
    i: u128,
) -> Option<Node<'a>>
    ensures value { option_map tree_of result
        ≡ slice_get (ExprTree body.now ∷ or_none (option_map handler_children handler.now) ++ option_to_list (option_map ExprTree last.now)) i }
    ensures within { OnSome result (i < 2 ^ 65) }
{
    let count = handler_len(handler);
    if i == 0 {
        Some(Node::Expr(body.get()))
    } else if i - 1 < count {
        of_handler(handler, i - 1)
    } else {
        optional(last, i - 1 - count)
    }
}

/// The child of a case with this number: its pattern, its guard where it has one, and its body.
pub(crate) fn case_child<'a>(c: &'a Case, i: u128) -> Option<Node<'a>>
    ensures value { option_map tree_of result ≡ slice_get (children (CaseTree c.now)) i }
    ensures within { OnSome result (i < 3) }
{
    match &c.guard {
        Some(guard) => match i {
            0 => Some(Node::Pattern(&c.pattern)),
            1 => Some(Node::Expr(guard)),
            2 => Some(Node::Expr(&c.body)),
            _ => None,
        },
        None => match i {
            0 => Some(Node::Pattern(&c.pattern)),
            1 => Some(Node::Expr(&c.body)),
            _ => None,
        },
    }
}

/// The child of a pattern with this number.
pub(crate) fn pattern_child<'a>(p: &'a Pattern, i: u128) -> Option<Node<'a>>
    ensures value { option_map tree_of result ≡ slice_get (children (PatternTree p.now)) i }
    ensures within { OnSome result (i < 2 ^ 64) }
{
    match p {
        Pattern::Any | Pattern::OfType(_) | Pattern::Object(_) => None,
        Pattern::Bind(_, p) => match i {
            0 => Some(Node::Pattern(p.get())),
            _ => None,
        },
        Pattern::Literal(e) => one(e, i),
        Pattern::Make { class: _, parts } | Pattern::Either(parts) => patterns(parts, i),
    }
}

/// The child of the constructor of a class with this number.
pub(crate) fn constructor_child<'a>(class: &'a Class, i: u128) -> Option<Node<'a>>
    ensures value { option_map tree_of result ≡ slice_get (children (ConstructorTree class.now)) i }
    ensures within { OnSome result (i < 2 ^ 68) }
{
    if class.kind == Kind::Trait {
        return exprs(class.body.as_slice(), i);
    }
    let params = class.params.as_slice();
    let count = params.len() as u128;
    if i < count {
        Some(Node::Stage(Stage::Parameter(params[i as usize])))
    } else {
        behind_params(class, i - count)
    }
}

// A child behind those for class parameters.
fn behind_params<'a>(class: &'a Class, i: u128) -> Option<Node<'a>>
    ensures value { option_map tree_of result ≡ slice_get (behind_params class.now) i }
    ensures within { OnSome result (i < 2 ^ 67) }
{
    let args = class.super_args.as_slice();
    let count = args.len() as u128;
    if i < count {
        exprs(args, i)
    } else if i == count {
        Some(Node::Stage(Stage::Superclass))
    } else {
        behind_superclass(class, i - count - 1)
    }
}

// A child behind the constructor of the superclass.
fn behind_superclass<'a>(class: &'a Class, i: u128) -> Option<Node<'a>>
    ensures value { option_map tree_of result ≡ slice_get (behind_superclass class.now) i }
    ensures within { OnSome result (i < 2 ^ 66) }
{
    let (mixins, body) = (class.mixins.as_slice(), class.body.as_slice());
    match body.split_first() {
        Some((first, rest)) if sets_module(first) => {
            if i == 0 {
                Some(Node::Expr(first))
            } else {
                mixins_then(mixins, rest, i - 1)
            }
        }
        _ => mixins_then(mixins, body, i),
    }
}

fn sets_module(e: &Expr) -> bool
    ensures { result ≡ sets_module e.now }
{
    matches!(e, Expr::SetModule(..))
}

fn mixins_then<'a>(mixins: &[u32], body: &'a [Expr], i: u128) -> Option<Node<'a>>
    ensures value { option_map tree_of result ≡ slice_get (mixins_then mixins.now body.now) i }
    ensures within { OnSome result (i < 2 ^ 65) }
{
    let count = mixins.len() as u128;
    if i < count {
        Some(Node::Stage(Stage::Mixin(mixins[i as usize])))
    } else {
        exprs(body, i - count)
    }
}
