//! The sizes of trees, by one walk.

ghost use Rattle.std.specs.Prelude.{map, option_map};
ghost use Rattle.ty_prog.specs.Node.{tree_of};
ghost use Rattle.ty_room.specs.declared.size.Size.{Size};
ghost use Rattle.ty_room.specs.Capped.{IsSize};
ghost use Rattle.ty_room.specs.Sizing.{beside, nothing, together, all_exprs, block_size, with_handler, with_finally, with_optional, with_guard, expr_size, case_sizes, pattern_size, handler_size, size_of};

use crate::ahead::Ahead;
use crate::combining::{
    behind, beside, bool_size, choice_size, closed, deciding_size, heavier, loop_size, make_size,
    merged, node_size, nothing, trying,
};
use crate::numbers::{
    CASE_BYTES, FINALLY_BYTES, convert_bytes, deciding, form, get_numbers, handler_bytes,
    local_bytes, making, operation, operator_numbers, put_numbers,
};
use crate::size::Size;
use sqlite_items::Boxed;
use ty_prog::{Case, Catch, Expr, Node, Pattern};

/// What a tree takes in a class file, at most; of a constructor and of its stages nothing.
pub fn size_of(ahead: Ahead, root: Node<'_>) -> Size
    ensures { IsSize result (size_of ahead (tree_of root.entry)) }
{
    match root {
        Node::Expr(e) => expr_size(ahead, e),
        Node::Case(c) => case_size(ahead, c),
        Node::Pattern(p) => pattern_size(ahead, p),
        Node::Constructor(_) | Node::Stage(_) => nothing(),
    }
}

/// What an expression takes in a class file, at most.
#[cycle(sizes)]
pub(crate) fn expr_size(ahead: Ahead, e: &Expr) -> Size
    ensures { IsSize result (expr_size ahead e.now) }
{
    match e {
        Expr::Int(_) => node_size(form(3, 1), nothing()),
        Expr::Long(_) => node_size(form(3, 2), nothing()),
        Expr::Bool(b) => bool_size(*b),
        Expr::Text(_) => node_size(form(3, 2), nothing()),
        Expr::Null => node_size(form(1, 0), nothing()),
        Expr::Unit => node_size(form(1, 0), nothing()),
        Expr::Local(local) => node_size(form(local_bytes(ahead, *local), 0), nothing()),
        Expr::SetLocal(_, of) => node_size(form(5, 0), one(ahead, of)),
        Expr::This => node_size(form(1, 0), nothing()),
        Expr::Get { of, .. } => node_size(get_numbers(ahead), one(ahead, of)),
        Expr::Put { of, value, .. } => node_size(
            put_numbers(ahead),
            beside(one(ahead, of), expr_size(ahead, value.get())),
        ),
        Expr::Call { of, args, .. } => node_size(
            operation(6, 4),
            merged(one(ahead, of), all_exprs(ahead, args.as_slice())),
        ),
        Expr::New { args, .. } => node_size(making(7, 3, 0), all_exprs(ahead, args.as_slice())),
        Expr::Prim { op, args } => node_size(
            operator_numbers(*op),
            all_exprs(ahead, args.as_slice()),
        ),
        Expr::Convert { to, of } => node_size(form(convert_bytes(*to), 0), one(ahead, of)),
        Expr::Equal(a, b) => node_size(
            deciding(18, 17),
            beside(one(ahead, a), expr_size(ahead, b.get())),
        ),
        Expr::TextOf(of) => node_size(form(10, 0), one(ahead, of)),
        Expr::Println(of) => node_size(form(14, 0), with_optional(ahead, nothing(), of)),
        Expr::If(c, a, b) => choice_size(
            expr_size(ahead, c.get()),
            expr_size(ahead, a.get()),
            expr_size(ahead, b.get()),
        ),
        Expr::While(c, b) => loop_size(expr_size(ahead, c.get()), expr_size(ahead, b.get())),
        Expr::Block(es) => block_size(ahead, es.as_slice()),
        Expr::Try {
            body,
            handler,
            last,
        } => trying(with_finally(ahead, with_handler(ahead, one(ahead, body), handler), last)),
        Expr::Throw(of) => node_size(form(1, 0), one(ahead, of)),
        Expr::Start(of) => node_size(form(4, 0), one(ahead, of)),
        Expr::Match { of, cases } => node_size(
            form(29, 3),
            merged(one(ahead, of), all_cases(ahead, cases.as_slice())),
        ),
        Expr::LazyGet { of, .. } => node_size(operation(6, 4), one(ahead, of)),
        Expr::ObjectGet(_) => node_size(form(3, 2), nothing()),
        Expr::SuperCall { args, .. } => node_size(
            making(10, 4, 1),
            all_exprs(ahead, args.as_slice()),
        ),
        Expr::Test { of, .. } => node_size(form(3, 0), one(ahead, of)),
        Expr::Cas { of, old, new, .. } => node_size(
            operation(6, 2),
            beside(
                beside(one(ahead, of), expr_size(ahead, old.get())),
                expr_size(ahead, new.get()),
            ),
        ),
        Expr::NewLatch(of) => node_size(form(3, 0), one(ahead, of)),
        Expr::OwnedHere(of) => node_size(form(3, 0), one(ahead, of)),
        Expr::Await(of) => node_size(form(7, 0), one(ahead, of)),
        Expr::CountDown(of) => node_size(form(7, 0), one(ahead, of)),
        Expr::StaticCall { args, .. } => node_size(
            operation(4, 4),
            all_exprs(ahead, args.as_slice()),
        ),
        Expr::ModuleGet(_) => node_size(form(3, 2), nothing()),
        Expr::SetModule(_, of) => node_size(form(4, 2), one(ahead, of)),
    }
}

// An expression as the only part.
#[cycle(sizes)]
fn one(ahead: Ahead, e: &Boxed<Expr>) -> Size
    ensures { IsSize result (beside nothing (expr_size ahead e.now)) }
{
    beside(nothing(), expr_size(ahead, e.get()))
}

// Parts and one more, if there is one.
#[cycle(sizes)]
fn with_optional(ahead: Ahead, parts: Size, e: &Option<Boxed<Expr>>) -> Size
    ensures { (x : Size) → IsSize parts x → IsSize result (with_optional x (option_map (expr_size ahead) e.now)) }
{
    match e {
        None => parts,
        Some(e) => beside(parts, expr_size(ahead, e.get())),
    }
}

// Parts and a `finally`, if there is one.
#[cycle(sizes)]
fn with_finally(ahead: Ahead, parts: Size, e: &Option<Boxed<Expr>>) -> Size
    ensures { (x : Size) → IsSize parts x → IsSize result (with_finally x (option_map (expr_size ahead) e.now)) }
{
    match e {
        None => parts,
        Some(e) => heavier(FINALLY_BYTES, beside(parts, expr_size(ahead, e.get()))),
    }
}

// Parts and those of a handler, if there is one.
#[cycle(sizes)]
fn with_handler(ahead: Ahead, parts: Size, handler: &Option<Catch>) -> Size
    ensures { (x : Size) → IsSize parts x
        → IsSize result (with_handler ahead x (option_map (handler_size ahead) handler.now)) }
{
    match handler {
        None => parts,
        Some(handler) => heavier(
            handler_bytes(ahead),
            merged(parts, handler_size(ahead, handler)),
        ),
    }
}

#[cycle(sizes)]
fn handler_size(ahead: Ahead, handler: &Catch) -> Size
    ensures { IsSize result (handler_size ahead handler.now) }
{
    match handler {
        Catch::Cases(cases) => all_cases(ahead, cases.as_slice()),
        Catch::Any { local: _, body } => one(ahead, body),
    }
}

// Parts and a guard, if there is one.
#[cycle(sizes)]
fn with_guard(ahead: Ahead, parts: Size, guard: &Option<Expr>) -> Size
    ensures { (x : Size) → IsSize parts x → IsSize result (with_guard x (option_map (expr_size ahead) guard.now)) }
{
    match guard {
        None => parts,
        Some(guard) => beside(parts, deciding_size(expr_size(ahead, guard))),
    }
}

/// All of some expressions.
#[cycle(sizes)]
pub(crate) fn all_exprs(ahead: Ahead, es: &[Expr]) -> Size
    ensures { IsSize result (all_exprs ahead es.now) }
{
    let mut so_far = nothing();
    for e in es {
        so_far = beside(so_far, expr_size(ahead, e));
    }
    so_far
}

// The sizes of cases together.
#[cycle(sizes)]
fn all_cases(ahead: Ahead, cases: &[Case]) -> Size
    ensures { IsSize result (together (map (case_sizes ahead) cases.now)) }
{
    let mut so_far = nothing();
    for c in cases {
        so_far = beside(so_far, case_size(ahead, c));
    }
    so_far
}

// The sizes of patterns together.
#[cycle(sizes)]
fn patterns(ahead: Ahead, parts: &[Pattern]) -> Size
    ensures { IsSize result (together (map (pattern_size ahead) parts.now)) }
{
    let mut so_far = nothing();
    for p in parts {
        so_far = beside(so_far, pattern_size(ahead, p));
    }
    so_far
}

#[cycle(sizes)]
fn block_size(ahead: Ahead, es: &[Expr]) -> Size
    ensures { IsSize result (block_size (map (expr_size ahead) es.now)) }
{
    let mut so_far = nothing();
    for e in es {
        so_far = behind(so_far, expr_size(ahead, e));
    }
    closed(so_far)
}

// The size of a case.
#[cycle(sizes)]
fn case_size(ahead: Ahead, c: &Case) -> Size
    ensures { IsSize result (case_sizes ahead c.now) }
{
    let pattern = beside(nothing(), pattern_size(ahead, &c.pattern));
    let guarded = with_guard(ahead, pattern, &c.guard);
    node_size(
        form(CASE_BYTES, 0),
        beside(guarded, expr_size(ahead, &c.body)),
    )
}

#[cycle(sizes)]
fn pattern_size(ahead: Ahead, p: &Pattern) -> Size
    ensures { IsSize result (pattern_size ahead p.now) }
{
    match p {
        Pattern::Any => node_size(form(0, 0), nothing()),
        Pattern::Bind(_, p) => node_size(
            form(29, 3),
            beside(nothing(), pattern_size(ahead, p.get())),
        ),
        Pattern::OfType(_) => node_size(form(25, 3), nothing()),
        Pattern::Literal(e) => node_size(form(21, 3), one(ahead, e)),
        Pattern::Object(_) => node_size(form(27, 5), nothing()),
        Pattern::Make { class: _, parts } => make_size(patterns(ahead, parts.as_slice())),
        Pattern::Either(parts) => node_size(form(17, 3), patterns(ahead, parts.as_slice())),
    }
}
