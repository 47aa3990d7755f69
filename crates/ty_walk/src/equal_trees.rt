//! Whether two expressions, cases or patterns are equal.

ghost use Rattle.std.specs.Prelude.{◌≡◌, ◌↔◌, IsTrue};

use sqlite_items::{Boxed, Items};
use ty_prog::{Case, Catch, Expr, Pattern};

/// Whether two expressions are equal.
#[cycle(same)]
pub(crate) fn same_expr(one: &Expr, other: &Expr) -> bool
    ensures { IsTrue result ↔ (one.now ≡ other.now) }
{
    match (one, other) {
        (Expr::Int(a), Expr::Int(b)) => *a == *b,
        (Expr::Long(a), Expr::Long(b)) => *a == *b,
        (Expr::Bool(a), Expr::Bool(b)) => *a == *b,
        (Expr::Text(a), Expr::Text(b)) => *a == *b,
        (Expr::Null, Expr::Null) => true,
        (Expr::Unit, Expr::Unit) => true,
        (Expr::Local(a), Expr::Local(b)) => *a == *b,
        (Expr::SetLocal(a, of), Expr::SetLocal(b, with)) => *a == *b && boxed(of, with),
        (Expr::This, Expr::This) => true,
        (
            Expr::Get { of, class, field },
            Expr::Get {
                of: with,
                class: kind,
                field: at,
            },
        ) => *class == *kind && *field == *at && boxed(of, with),
        (
            Expr::Put {
                of,
                class,
                field,
                value,
            },
            Expr::Put {
                of: with,
                class: kind,
                field: at,
                value: second,
            },
        ) => *class == *kind && *field == *at && boxed(of, with) && boxed(value, second),
        (
            Expr::Call {
                of,
                class,
                method,
                args,
            },
            Expr::Call {
                of: with,
                class: kind,
                method: at,
                args: others,
            },
        ) => *class == *kind && *method == *at && boxed(of, with) && same_exprs(args, others),
        (
            Expr::New { class, args },
            Expr::New {
                class: kind,
                args: others,
            },
        ) => *class == *kind && same_exprs(args, others),
        (
            Expr::Prim { op, args },
            Expr::Prim {
                op: kind,
                args: others,
            },
        ) => *op == *kind && same_exprs(args, others),
        (Expr::Convert { to, of }, Expr::Convert { to: kind, of: with }) => {
            *to == *kind && boxed(of, with)
        }
        (Expr::Equal(a, b), Expr::Equal(c, d)) => boxed(a, c) && boxed(b, d),
        (Expr::TextOf(a), Expr::TextOf(b)) => boxed(a, b),
        (Expr::Println(a), Expr::Println(b)) => boxed_if(a, b),
        (Expr::If(a, b, c), Expr::If(d, e, f)) => boxed(a, d) && boxed(b, e) && boxed(c, f),
        (Expr::While(a, b), Expr::While(c, d)) => boxed(a, c) && boxed(b, d),
        (Expr::Block(a), Expr::Block(b)) => same_exprs(a, b),
        (
            Expr::Try {
                body,
                handler,
                last,
            },
            Expr::Try {
                body: with,
                handler: second,
                last: end,
            },
        ) => boxed(body, with) && catch_if(handler, second) && boxed_if(last, end),
        (Expr::Throw(a), Expr::Throw(b)) => boxed(a, b),
        (Expr::Start(a), Expr::Start(b)) => boxed(a, b),
        (
            Expr::Match { of, cases },
            Expr::Match {
                of: with,
                cases: others,
            },
        ) => boxed(of, with) && all_cases(cases, others),
        (
            Expr::LazyGet { of, class, cell },
            Expr::LazyGet {
                of: with,
                class: kind,
                cell: at,
            },
        ) => *class == *kind && *cell == *at && boxed(of, with),
        (Expr::ObjectGet(a), Expr::ObjectGet(b)) => *a == *b,
        (
            Expr::SuperCall { after, name, args },
            Expr::SuperCall {
                after: kind,
                name: at,
                args: others,
            },
        ) => *after == *kind && *name == *at && same_exprs(args, others),
        (
            Expr::Test { of, test },
            Expr::Test {
                of: with,
                test: kind,
            },
        ) => *test == *kind && boxed(of, with),
        (
            Expr::Cas {
                of,
                class,
                field,
                old,
                new,
            },
            Expr::Cas {
                of: with,
                class: kind,
                field: at,
                old: first,
                new: second,
            },
        ) => {
            *class == *kind
                && *field == *at
                && boxed(of, with)
                && boxed(old, first)
                && boxed(new, second)
        }
        (Expr::NewLatch(a), Expr::NewLatch(b)) => boxed(a, b),
        (Expr::OwnedHere(a), Expr::OwnedHere(b)) => boxed(a, b),
        (Expr::Await(a), Expr::Await(b)) => boxed(a, b),
        (Expr::CountDown(a), Expr::CountDown(b)) => boxed(a, b),
        (
            Expr::StaticCall {
                class,
                method,
                args,
            },
            Expr::StaticCall {
                class: kind,
                method: at,
                args: others,
            },
        ) => *class == *kind && *method == *at && same_exprs(args, others),
        (Expr::ModuleGet(a), Expr::ModuleGet(b)) => *a == *b,
        (Expr::SetModule(a, of), Expr::SetModule(b, with)) => *a == *b && boxed(of, with),
        _ => false,
    }
}

#[cycle(same)]
fn boxed(one: &Boxed<Expr>, other: &Boxed<Expr>) -> bool
    ensures { IsTrue result ↔ (one.now ≡ other.now) }
{
    same_expr(one.get(), other.get())
}

#[cycle(same)]
fn boxed_if(one: &Option<Boxed<Expr>>, other: &Option<Boxed<Expr>>) -> bool
    ensures { IsTrue result ↔ (one.now ≡ other.now) }
{
    match (one, other) {
        (None, None) => true,
        (Some(a), Some(b)) => same_expr(a.get(), b.get()),
        _ => false,
    }
}

/// Whether two expressions are equal, or none.
#[cycle(same)]
pub(crate) fn same_expr_if(one: &Option<Expr>, other: &Option<Expr>) -> bool
    ensures { IsTrue result ↔ (one.now ≡ other.now) }
{
    match (one, other) {
        (None, None) => true,
        (Some(a), Some(b)) => same_expr(a, b),
        _ => false,
    }
}

/// Whether two lists of expressions are equal.
#[cycle(same)]
pub(crate) fn same_exprs(one: &Items<Expr>, other: &Items<Expr>) -> bool
    ensures { IsTrue result ↔ (one.now ≡ other.now) }
{
    let others = other.as_slice();
    if one.len() != others.len() {
        return false;
    }
    for (i, e) in one.as_slice().iter().enumerate() {
        if !same_expr(e, &others[i]) {
            return false;
        }
    }
    true
}

#[cycle(same)]
fn all_cases(one: &Items<Case>, other: &Items<Case>) -> bool
    ensures { IsTrue result ↔ (one.now ≡ other.now) }
{
    let others = other.as_slice();
    if one.len() != others.len() {
        return false;
    }
    for (i, case) in one.as_slice().iter().enumerate() {
        if !same_case(case, &others[i]) {
            return false;
        }
    }
    true
}

/// Whether two cases are equal.
#[cycle(same)]
pub(crate) fn same_case(one: &Case, other: &Case) -> bool
    ensures { IsTrue result ↔ (one.now ≡ other.now) }
{
    same_pattern(&one.pattern, &other.pattern)
        && same_expr_if(&one.guard, &other.guard)
        && same_expr(&one.body, &other.body)
}

#[cycle(same)]
fn catch_if(one: &Option<Catch>, other: &Option<Catch>) -> bool
    ensures { IsTrue result ↔ (one.now ≡ other.now) }
{
    match (one, other) {
        (None, None) => true,
        (Some(a), Some(b)) => same_catch(a, b),
        _ => false,
    }
}

#[cycle(same)]
fn same_catch(one: &Catch, other: &Catch) -> bool
    ensures { IsTrue result ↔ (one.now ≡ other.now) }
{
    match (one, other) {
        (Catch::Cases(a), Catch::Cases(b)) => all_cases(a, b),
        (
            Catch::Any { local, body },
            Catch::Any {
                local: at,
                body: with,
            },
        ) => { *local == *at && boxed(body, with) }
        _ => false,
    }
}

/// Whether two patterns are equal.
#[cycle(same)]
pub(crate) fn same_pattern(one: &Pattern, other: &Pattern) -> bool
    ensures { IsTrue result ↔ (one.now ≡ other.now) }
{
    match (one, other) {
        (Pattern::Any, Pattern::Any) => true,
        (Pattern::Bind(a, p), Pattern::Bind(b, q)) => *a == *b && same_pattern(p.get(), q.get()),
        (Pattern::OfType(a), Pattern::OfType(b)) => *a == *b,
        (Pattern::Literal(a), Pattern::Literal(b)) => boxed(a, b),
        (Pattern::Object(a), Pattern::Object(b)) => *a == *b,
        (
            Pattern::Make { class, parts },
            Pattern::Make {
                class: kind,
                parts: others,
            },
        ) => *class == *kind && patterns(parts, others),
        (Pattern::Either(a), Pattern::Either(b)) => patterns(a, b),
        _ => false,
    }
}

#[cycle(same)]
fn patterns(one: &Items<Pattern>, other: &Items<Pattern>) -> bool
    ensures { IsTrue result ↔ (one.now ≡ other.now) }
{
    let others = other.as_slice();
    if one.len() != others.len() {
        return false;
    }
    for (i, p) in one.as_slice().iter().enumerate() {
        if !same_pattern(p, &others[i]) {
            return false;
        }
    }
    true
}
