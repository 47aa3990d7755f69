//! Copies of trees, which equal what they copy.

ghost use Rattle.std.specs.Prelude.{◌≡◌, IfOk};

use crate::NoMemory;
use crate::case::Case;
use crate::catch::Catch;
use crate::expr::Expr;
use crate::pattern::Pattern;
use sqlite_items::{Boxed, Items};
use std::alloc::Global;

/// A copy of an expression. Errors: want of memory.
#[cycle(copy)]
pub fn copy_expr(alloc: Global, e: &Expr) -> Result<Expr, NoMemory>
    ensures { IfOk result (λ made. made ≡ e.now) }
{
    match e {
        Expr::Int(number) => Ok(Expr::Int(*number)),
        Expr::Long(number) => Ok(Expr::Long(*number)),
        Expr::Bool(truth) => Ok(Expr::Bool(*truth)),
        Expr::Text(text) => Ok(Expr::Text(text.copy(alloc)?)),
        Expr::Null => Ok(Expr::Null),
        Expr::Unit => Ok(Expr::Unit),
        Expr::Local(local) => Ok(Expr::Local(*local)),
        Expr::SetLocal(local, of) => Ok(Expr::SetLocal(*local, boxed(alloc, of)?)),
        Expr::This => Ok(Expr::This),
        Expr::Get { of, class, field } => Ok(Expr::Get {
            of: boxed(alloc, of)?,
            class: *class,
            field: *field,
        }),
        Expr::Put {
            of,
            class,
            field,
            value,
        } => Ok(Expr::Put {
            of: boxed(alloc, of)?,
            class: *class,
            field: *field,
            value: boxed(alloc, value)?,
        }),
        Expr::Call {
            of,
            class,
            method,
            args,
        } => Ok(Expr::Call {
            of: boxed(alloc, of)?,
            class: *class,
            method: *method,
            args: exprs(alloc, args)?,
        }),
        Expr::New { class, args } => Ok(Expr::New {
            class: *class,
            args: exprs(alloc, args)?,
        }),
        Expr::Prim { op, args } => Ok(Expr::Prim {
            op: *op,
            args: exprs(alloc, args)?,
        }),
        Expr::Convert { to, of } => Ok(Expr::Convert {
            to: *to,
            of: boxed(alloc, of)?,
        }),
        Expr::Equal(a, b) => Ok(Expr::Equal(boxed(alloc, a)?, boxed(alloc, b)?)),
        Expr::TextOf(of) => Ok(Expr::TextOf(boxed(alloc, of)?)),
        Expr::Println(of) => Ok(Expr::Println(boxed_if(alloc, of)?)),
        Expr::If(a, b, c) => Ok(Expr::If(boxed(alloc, a)?, boxed(alloc, b)?, boxed(alloc, c)?)),
        Expr::While(a, b) => Ok(Expr::While(boxed(alloc, a)?, boxed(alloc, b)?)),
        Expr::Block(es) => Ok(Expr::Block(exprs(alloc, es)?)),
        Expr::Try {
            body,
            handler,
            last,
        } => Ok(Expr::Try {
            body: boxed(alloc, body)?,
            handler: catch_if(alloc, handler)?,
            last: boxed_if(alloc, last)?,
        }),
        Expr::Throw(of) => Ok(Expr::Throw(boxed(alloc, of)?)),
        Expr::Start(of) => Ok(Expr::Start(boxed(alloc, of)?)),
        Expr::Match { of, cases } => Ok(Expr::Match {
            of: boxed(alloc, of)?,
            cases: all_cases(alloc, cases)?,
        }),
        Expr::LazyGet { of, class, cell } => Ok(Expr::LazyGet {
            of: boxed(alloc, of)?,
            class: *class,
            cell: *cell,
        }),
        Expr::ObjectGet(class) => Ok(Expr::ObjectGet(*class)),
        Expr::SuperCall { after, name, args } => Ok(Expr::SuperCall {
            after: *after,
            name: name.copy(alloc)?,
            args: exprs(alloc, args)?,
        }),
        Expr::Test { of, test } => Ok(Expr::Test {
            of: boxed(alloc, of)?,
            test: *test,
        }),
        Expr::Cas {
            of,
            class,
            field,
            old,
            new,
        } => Ok(Expr::Cas {
            of: boxed(alloc, of)?,
            class: *class,
            field: *field,
            old: boxed(alloc, old)?,
            new: boxed(alloc, new)?,
        }),
        Expr::NewLatch(of) => Ok(Expr::NewLatch(boxed(alloc, of)?)),
        Expr::OwnedHere(of) => Ok(Expr::OwnedHere(boxed(alloc, of)?)),
        Expr::Await(of) => Ok(Expr::Await(boxed(alloc, of)?)),
        Expr::CountDown(of) => Ok(Expr::CountDown(boxed(alloc, of)?)),
        Expr::StaticCall {
            class,
            method,
            args,
        } => Ok(Expr::StaticCall {
            class: *class,
            method: *method,
            args: exprs(alloc, args)?,
        }),
        Expr::ModuleGet(class) => Ok(Expr::ModuleGet(*class)),
        Expr::SetModule(class, of) => Ok(Expr::SetModule(*class, boxed(alloc, of)?)),
    }
}

#[cycle(copy)]
fn boxed(alloc: Global, e: &Boxed<Expr>) -> Result<Boxed<Expr>, NoMemory>
    ensures { IfOk result (λ made. made ≡ e.now) }
{
    let made = copy_expr(alloc, e.get())?;
    Ok(Boxed::new(alloc, made)?)
}

#[cycle(copy)]
fn boxed_if(alloc: Global, e: &Option<Boxed<Expr>>) -> Result<Option<Boxed<Expr>>, NoMemory>
    ensures { IfOk result (λ made. made ≡ e.now) }
{
    match e {
        None => Ok(None),
        Some(e) => {
            let made = copy_expr(alloc, e.get())?;
            Ok(Some(Boxed::new(alloc, made)?))
        }
    }
}

#[cycle(copy)]
fn exprs(alloc: Global, es: &Items<Expr>) -> Result<Items<Expr>, NoMemory>
    ensures { IfOk result (λ made. made ≡ es.now) }
{
    let mut made = Items::new(alloc);
    for e in es.as_slice() {
        made.push(copy_expr(alloc, e)?)?;
    }
    Ok(made)
}

#[cycle(copy)]
fn all_cases(alloc: Global, cases: &Items<Case>) -> Result<Items<Case>, NoMemory>
    ensures { IfOk result (λ made. made ≡ cases.now) }
{
    let mut made = Items::new(alloc);
    for c in cases.as_slice() {
        made.push(copy_case(alloc, c)?)?;
    }
    Ok(made)
}

/// A copy of a case. Errors: want of memory.
#[cycle(copy)]
pub fn copy_case(alloc: Global, c: &Case) -> Result<Case, NoMemory>
    ensures { IfOk result (λ made. made ≡ c.now) }
{
    let pattern = copy_pattern(alloc, &c.pattern)?;
    let guard = match &c.guard {
        Some(guard) => Some(copy_expr(alloc, guard)?),
        None => None,
    };
    let body = copy_expr(alloc, &c.body)?;
    Ok(Case {
        pattern,
        guard,
        body,
    })
}

#[cycle(copy)]
fn catch_if(alloc: Global, handler: &Option<Catch>) -> Result<Option<Catch>, NoMemory>
    ensures { IfOk result (λ made. made ≡ handler.now) }
{
    match handler {
        None => Ok(None),
        Some(Catch::Cases(cases)) => Ok(Some(Catch::Cases(all_cases(alloc, cases)?))),
        Some(Catch::Any { local, body }) => Ok(Some(Catch::Any {
            local: *local,
            body: boxed(alloc, body)?,
        })),
    }
}

/// A copy of a pattern. Errors: want of memory.
#[cycle(copy)]
pub fn copy_pattern(alloc: Global, p: &Pattern) -> Result<Pattern, NoMemory>
    ensures { IfOk result (λ made. made ≡ p.now) }
{
    match p {
        Pattern::Any => Ok(Pattern::Any),
        Pattern::Bind(local, p) => {
            let made = copy_pattern(alloc, p.get())?;
            Ok(Pattern::Bind(*local, Boxed::new(alloc, made)?))
        }
        Pattern::OfType(ty) => Ok(Pattern::OfType(*ty)),
        Pattern::Literal(e) => Ok(Pattern::Literal(boxed(alloc, e)?)),
        Pattern::Object(class) => Ok(Pattern::Object(*class)),
        Pattern::Make { class, parts } => Ok(Pattern::Make {
            class: *class,
            parts: patterns(alloc, parts)?,
        }),
        Pattern::Either(parts) => Ok(Pattern::Either(patterns(alloc, parts)?)),
    }
}

#[cycle(copy)]
fn patterns(alloc: Global, parts: &Items<Pattern>) -> Result<Items<Pattern>, NoMemory>
    ensures { IfOk result (λ made. made ≡ parts.now) }
{
    let mut made = Items::new(alloc);
    for p in parts.as_slice() {
        made.push(copy_pattern(alloc, p)?)?;
    }
    Ok(made)
}
