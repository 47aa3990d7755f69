//! What a tree does with one local, part by part.

ghost use Rattle.std.specs.Prelude.{◌≡◌, false, fold, map, option_map};
ghost use Rattle.std.specs.Option.{unwrap_or};
ghost use Rattle.ty_prog.specs.Tree.{ConstructorTree};
ghost use Rattle.ty_prog.specs.Node.{tree_of};
ghost use Rattle.ty_flow.specs.Uses.{untouched, leaves, literal, followed, both, one_of, first_of, expr_passage, passage};
ghost use Rattle.ty_flow.specs.Parts.{handler_passage, case_passage, pattern_passage};

use crate::joining::{
    LEAVES, NO_CASE, UNTOUCHED, alone, both, bound, chosen, either_way, ended, followed, guarded,
    literal, looped, none, one_of, operated, or_else, printed, read, stored, tested, three, tried,
    two,
};
use crate::passage::{CasePassage, Passage};
use sqlite_items::Boxed;
use ty_prog::{Case, Catch, Class, Expr, Node, Pattern};

/// What a tree does with one local; a case as the way on which it is taken.
pub fn passage(local: u32, root: Node<'_>) -> Passage
    ensures { result ≡ passage local (tree_of root.entry) }
{
    match root {
        Node::Expr(e) => expr_passage(local, e),
        Node::Case(c) => case_passage(local, c).taken,
        Node::Pattern(p) => pattern_passage(local, p),
        Node::Constructor(class) => constructor_passage(local, class),
        Node::Stage(_) => UNTOUCHED,
    }
}

// What a constructor does with the local.
fn constructor_passage(local: u32, class: &Class) -> Passage
    ensures { result ≡ passage local (ConstructorTree class.now) }
{
    let args = exprs_behind(local, UNTOUCHED, class.super_args.as_slice());
    let body = exprs_behind(local, UNTOUCHED, class.body.as_slice());
    two(args, body)
}

// What an expression does with it.
#[cycle(passages)]
fn expr_passage(local: u32, e: &Expr) -> Passage
    ensures { result ≡ expr_passage local e.now }
{
    match e {
        Expr::Int(_)
        | Expr::Long(_)
        | Expr::Text(_)
        | Expr::Null
        | Expr::Unit
        | Expr::This
        | Expr::ObjectGet(_)
        | Expr::ModuleGet(_) => none(),
        Expr::Bool(b) => literal(*b),
        Expr::Local(other) => read(local, *other),
        Expr::SetLocal(other, of) => followed(expr_passage(local, of.get()), stored(local, *other)),
        Expr::Throw(of) => followed(expr_passage(local, of.get()), LEAVES),
        Expr::Get { of, .. }
        | Expr::Convert { to: _, of }
        | Expr::TextOf(of)
        | Expr::Start(of)
        | Expr::LazyGet { of, .. }
        | Expr::Test { of, .. }
        | Expr::NewLatch(of)
        | Expr::OwnedHere(of)
        | Expr::Await(of)
        | Expr::CountDown(of)
        | Expr::SetModule(_, of) => alone(expr_passage(local, of.get())),
        Expr::Put { of, value, .. } => two(
            expr_passage(local, of.get()),
            expr_passage(local, value.get()),
        ),
        Expr::Equal(a, b) => two(expr_passage(local, a.get()), expr_passage(local, b.get())),
        Expr::While(a, b) => looped(expr_passage(local, a.get()), expr_passage(local, b.get())),
        Expr::If(a, b, c) => chosen(
            expr_passage(local, a.get()),
            expr_passage(local, b.get()),
            expr_passage(local, c.get()),
        ),
        Expr::Cas { of, old, new, .. } => three(
            expr_passage(local, of.get()),
            expr_passage(local, old.get()),
            expr_passage(local, new.get()),
        ),
        Expr::Println(of) => printed(optional(local, of)),
        Expr::Block(parts) => exprs_behind(local, UNTOUCHED, parts.as_slice()),
        Expr::Prim { op, args } => {
            operated(*op, exprs_behind(local, UNTOUCHED, args.as_slice()))
        }
        Expr::New { class: _, args }
        | Expr::SuperCall { args, .. }
        | Expr::StaticCall { args, .. } => {
            either_way(exprs_behind(local, UNTOUCHED, args.as_slice()))
        }
        Expr::Call { of, args, .. } => {
            let of = followed(UNTOUCHED, expr_passage(local, of.get()));
            either_way(exprs_behind(local, of, args.as_slice()))
        }
        Expr::Match { of, cases } => followed(
            expr_passage(local, of.get()),
            first_case(local, cases.as_slice()),
        ),
        Expr::Try {
            body,
            handler,
            last,
        } => tried(
            expr_passage(local, body.get()),
            handled(local, handler),
            ended(optional(local, last)),
        ),
    }
}

// What an expression does with it, if there is one.
#[cycle(passages)]
fn optional(local: u32, e: &Option<Boxed<Expr>>) -> Option<Passage>
    ensures { result ≡ option_map (expr_passage local) e.now }
{
    match e {
        None => None,
        Some(e) => Some(expr_passage(local, e.get())),
    }
}

// What a handler does with it; where there is none, no way goes on.
#[cycle(passages)]
fn handled(local: u32, handler: &Option<Catch>) -> Passage
    ensures { result ≡ unwrap_or (option_map (handler_passage local) handler.now) leaves }
{
    match handler {
        None => LEAVES,
        Some(Catch::Cases(cases)) => first_case(local, cases.as_slice()),
        Some(Catch::Any { local: other, body }) => {
            followed(stored(local, *other), expr_passage(local, body.get()))
        }
    }
}

// What stands before, and then some expressions one after the other.
#[cycle(passages)]
fn exprs_behind(local: u32, before: Passage, es: &[Expr]) -> Passage
    ensures { result ≡ fold followed before (map (expr_passage local) es.now) }
{
    let mut passed = before;
    for e in es {
        passed = followed(passed, expr_passage(local, e));
    }
    passed
}

// The first of some cases that is taken.
#[cycle(passages)]
fn first_case(local: u32, cases: &[Case]) -> Passage
    ensures { result ≡ first_of (map (case_passage local) cases.now) }
{
    let mut passed = NO_CASE;
    for c in cases {
        passed = or_else(passed, case_passage(local, c));
    }
    passed.taken
}

// What a case does with it.
#[cycle(passages)]
fn case_passage(local: u32, c: &Case) -> CasePassage
    ensures { result ≡ case_passage local c.now }
{
    let pattern = pattern_passage(local, &c.pattern);
    let guard = match &c.guard {
        Some(guard) => Some(expr_passage(local, guard)),
        None => None,
    };
    let body = expr_passage(local, &c.body);
    tested(guarded(pattern, guard), body)
}

// What a pattern does with it.
#[cycle(passages)]
fn pattern_passage(local: u32, p: &Pattern) -> Passage
    ensures { result ≡ pattern_passage local p.now }
{
    match p {
        Pattern::Any => literal(true),
        Pattern::OfType(_) | Pattern::Object(_) => UNTOUCHED,
        Pattern::Bind(other, p) => bound(local, *other, pattern_passage(local, p.get())),
        Pattern::Literal(e) => either_way(expr_passage(local, e.get())),
        Pattern::Make { class: _, parts } => all_parts(local, parts.as_slice()),
        Pattern::Either(parts) => one_part(local, parts.as_slice()),
    }
}

// The test for a class, and then all of some patterns.
#[cycle(passages)]
fn all_parts(local: u32, parts: &[Pattern]) -> Passage
    ensures { result ≡ fold both untouched (map (pattern_passage local) parts.now) }
{
    let mut passed = UNTOUCHED;
    for p in parts {
        passed = both(passed, pattern_passage(local, p));
    }
    passed
}

// One of some patterns.
#[cycle(passages)]
fn one_part(local: u32, parts: &[Pattern]) -> Passage
    ensures { result ≡ fold one_of (literal false) (map (pattern_passage local) parts.now) }
{
    let mut passed = literal(false);
    for p in parts {
        passed = one_of(passed, pattern_passage(local, p));
    }
    passed
}
