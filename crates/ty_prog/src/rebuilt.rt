//! A node of the shape of another, with the parts of a stack as its children.

ghost use Rattle.std.specs.Prelude.{◌≡◌, IfOk};
ghost use Rattle.ty_prog.specs.declared.expr.Expr.{out-Expr};
ghost use Rattle.ty_prog.specs.declared.case.Case.{out-Case};
ghost use Rattle.ty_prog.specs.declared.pattern.Pattern.{out-Pattern};
ghost use Rattle.ty_prog.specs.Shape.{expr_form, pattern_form, case_form, handler_form};
ghost use Rattle.ty_prog.specs.Part.{in_order};
ghost use Rattle.ty_prog.specs.Rebuilt.{expr_rebuilt, pattern_rebuilt, case_rebuilt};

use crate::case::Case;
use crate::expr::Expr;
use crate::part::Part;
use crate::parts::{
    boxed, cases, exprs, first_expr, first_pattern, handler_rebuilt, optional_rebuilt, patterns,
};
use crate::pattern::Pattern;
use sqlite_items::{Boxed, Items};
use std::alloc::{AllocError, Global};

/// An expression of the shape of another, with the parts of a stack as its children.
pub(crate) fn expr_rebuilt(
    alloc: Global,
    e: &Expr,
    left: &mut Items<Part>,
) -> Result<Expr, AllocError>
    ensures { IfOk result (λ made. out-Expr made ≡ expr_rebuilt (expr_form handler_form (out-Expr e.now)) (in_order left.old)) }
{
    match e {
        Expr::Int(number) => Ok(Expr::Int(*number)),
        Expr::Long(number) => Ok(Expr::Long(*number)),
        Expr::Bool(truth) => Ok(Expr::Bool(*truth)),
        Expr::Text(text) => Ok(Expr::Text(text.copy(alloc)?)),
        Expr::Null => Ok(Expr::Null),
        Expr::Unit => Ok(Expr::Unit),
        Expr::Local(local) => Ok(Expr::Local(*local)),
        Expr::SetLocal(local, _) => Ok(Expr::SetLocal(*local, boxed(alloc, left)?)),
        Expr::This => Ok(Expr::This),
        Expr::Get {
            of: _,
            class,
            field,
        } => Ok(Expr::Get {
            of: boxed(alloc, left)?,
            class: *class,
            field: *field,
        }),
        Expr::Put {
            of: _,
            class,
            field,
            value: _,
        } => Ok(Expr::Put {
            of: boxed(alloc, left)?,
            class: *class,
            field: *field,
            value: boxed(alloc, left)?,
        }),
        Expr::Call {
            of: _,
            class,
            method,
            args: _,
        } => Ok(Expr::Call {
            of: boxed(alloc, left)?,
            class: *class,
            method: *method,
            args: exprs(alloc, left)?,
        }),
        Expr::New { class, args: _ } => Ok(Expr::New {
            class: *class,
            args: exprs(alloc, left)?,
        }),
        Expr::Prim { op, args: _ } => Ok(Expr::Prim {
            op: *op,
            args: exprs(alloc, left)?,
        }),
        Expr::Convert { to, of: _ } => Ok(Expr::Convert {
            to: *to,
            of: boxed(alloc, left)?,
        }),
        Expr::Equal(..) => Ok(Expr::Equal(boxed(alloc, left)?, boxed(alloc, left)?)),
        Expr::TextOf(_) => Ok(Expr::TextOf(boxed(alloc, left)?)),
        Expr::Println(of) => Ok(Expr::Println(optional_rebuilt(alloc, of, left)?)),
        Expr::If(..) => Ok(Expr::If(
            boxed(alloc, left)?,
            boxed(alloc, left)?,
            boxed(alloc, left)?,
        )),
        Expr::While(..) => Ok(Expr::While(boxed(alloc, left)?, boxed(alloc, left)?)),
        Expr::Block(_) => Ok(Expr::Block(exprs(alloc, left)?)),
        Expr::Try {
            body: _,
            handler,
            last,
        } => Ok(Expr::Try {
            body: boxed(alloc, left)?,
            handler: handler_rebuilt(alloc, handler, left)?,
            last: optional_rebuilt(alloc, last, left)?,
        }),
        Expr::Throw(_) => Ok(Expr::Throw(boxed(alloc, left)?)),
        Expr::Start(_) => Ok(Expr::Start(boxed(alloc, left)?)),
        Expr::Match {
            of: _,
            cases: branches,
        } => Ok(Expr::Match {
            of: boxed(alloc, left)?,
            cases: cases(alloc, branches.len(), left)?,
        }),
        Expr::LazyGet { of: _, class, cell } => Ok(Expr::LazyGet {
            of: boxed(alloc, left)?,
            class: *class,
            cell: *cell,
        }),
        Expr::ObjectGet(class) => Ok(Expr::ObjectGet(*class)),
        Expr::SuperCall {
            after,
            name,
            args: _,
        } => Ok(Expr::SuperCall {
            after: *after,
            name: name.copy(alloc)?,
            args: exprs(alloc, left)?,
        }),
        Expr::Test { of: _, test } => Ok(Expr::Test {
            of: boxed(alloc, left)?,
            test: *test,
        }),
        Expr::Cas {
            of: _,
            class,
            field,
            old: _,
            new: _,
        } => Ok(Expr::Cas {
            of: boxed(alloc, left)?,
            class: *class,
            field: *field,
            old: boxed(alloc, left)?,
            new: boxed(alloc, left)?,
        }),
        Expr::NewLatch(_) => Ok(Expr::NewLatch(boxed(alloc, left)?)),
        Expr::OwnedHere(_) => Ok(Expr::OwnedHere(boxed(alloc, left)?)),
        Expr::Await(_) => Ok(Expr::Await(boxed(alloc, left)?)),
        Expr::CountDown(_) => Ok(Expr::CountDown(boxed(alloc, left)?)),
        Expr::StaticCall {
            class,
            method,
            args: _,
        } => Ok(Expr::StaticCall {
            class: *class,
            method: *method,
            args: exprs(alloc, left)?,
        }),
        Expr::ModuleGet(class) => Ok(Expr::ModuleGet(*class)),
        Expr::SetModule(class, _) => Ok(Expr::SetModule(*class, boxed(alloc, left)?)),
    }
}

/// A pattern of the shape of another, with the parts of a stack as its children.
pub(crate) fn pattern_rebuilt(
    alloc: Global,
    p: &Pattern,
    left: &mut Items<Part>,
) -> Result<Pattern, AllocError>
    ensures { IfOk result (λ made. out-Pattern made ≡ pattern_rebuilt (pattern_form (out-Pattern p.now)) (in_order left.old)) }
{
    match p {
        Pattern::Any => Ok(Pattern::Any),
        Pattern::Bind(local, _) => {
            let part = first_pattern(left);
            Ok(Pattern::Bind(*local, Boxed::new(alloc, part)?))
        }
        Pattern::OfType(ty) => Ok(Pattern::OfType(*ty)),
        Pattern::Literal(_) => Ok(Pattern::Literal(boxed(alloc, left)?)),
        Pattern::Object(class) => Ok(Pattern::Object(*class)),
        Pattern::Make { class, parts: _ } => Ok(Pattern::Make {
            class: *class,
            parts: patterns(alloc, left)?,
        }),
        Pattern::Either(_) => Ok(Pattern::Either(patterns(alloc, left)?)),
    }
}

/// A case of the shape of another, with the parts of a stack as its children.
pub(crate) fn case_rebuilt(c: &Case, left: &mut Items<Part>) -> Case
    ensures { out-Case result ≡ case_rebuilt (case_form (out-Case c.now)) (in_order left.old) }
{
    let pattern = first_pattern(left);
    let guard = match &c.guard {
        Some(_) => Some(first_expr(left)),
        None => None,
    };
    let body = first_expr(left);
    Case {
        pattern,
        guard,
        body,
    }
}
