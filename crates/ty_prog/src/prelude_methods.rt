//! The methods of the classes that every program begins with.

ghost use Rattle.std.specs.Prelude.{◌≡◌, [], ◌∷◌, Some, IfOk, IsTrue};
ghost use Rattle.std.specs.Char.{is_ascii};
ghost use Rattle.std.specs.List.{list_all};
ghost use Rattle.ty_prog.specs.declared.expr.Expr.TheVariants as expr;
ghost use Rattle.ty_prog.specs.Prelude.{method, get_message, class_name, to_string, thread, throwable};

use crate::expr::Expr;
use crate::method::Method;
use crate::plain_name::plain_name;
use crate::prim_op::PrimOp;
use crate::ty::Ty;
use sqlite_items::{Boxed, Items};
use std::alloc::{AllocError, Global};

/// A method without parameters.
pub(crate) fn method(
    alloc: Global,
    name: &str,
    of: Ty,
    body: Option<Expr>,
) -> Result<Method, AllocError>
    requires { IsTrue (list_all is_ascii name.now) }
    ensures { IfOk result (λ m. m ≡ method name.now of body) }
{
    Ok(Method {
        name: plain_name(alloc, name)?,
        params: Items::new(alloc),
        result: of,
        body,
        is_static: false,
        locals: 0,
    })
}

/// `start` of Thread.
pub(crate) fn start(alloc: Global) -> Result<Method, AllocError>
    ensures { IfOk result (λ m. m ∷ [] ≡ thread.methods) }
{
    let body = Expr::Start(Boxed::new(alloc, Expr::This)?);
    method(alloc, "start", Ty::Unit, Some(body))
}

/// The methods of Throwable.
pub(crate) fn throwable_methods(alloc: Global) -> Result<Items<Method>, AllocError>
    ensures { IfOk result (λ methods. methods ≡ throwable.methods) }
{
    let mut methods = Items::new(alloc);
    let body = message_of_this(alloc)?;
    methods.push(method(alloc, "getMessage", Ty::Text, Some(body))?)?;
    let body = text_of_this(alloc)?;
    methods.push(method(alloc, "toString", Ty::Text, Some(body))?)?;
    Ok(methods)
}

fn message_of_this(alloc: Global) -> Result<Expr, AllocError>
    ensures { IfOk result (λ e. e ≡ get_message) }
{
    Ok(Expr::Get {
        of: Boxed::new(alloc, Expr::This)?,
        class: 2,
        field: 0,
    })
}

fn class_of_this(alloc: Global) -> Result<Expr, AllocError>
    ensures { IfOk result (λ e. e ≡ class_name) }
{
    let mut args = Items::new(alloc);
    args.push(Expr::This)?;
    Ok(Expr::Prim {
        op: PrimOp::ClassName,
        args,
    })
}

// An operator and its two operands.
fn binary(alloc: Global, op: PrimOp, left: Expr, right: Expr) -> Result<Expr, AllocError>
    ensures { IfOk result (λ e. e ≡ expr.Prim op (left ∷ right ∷ [])) }
{
    let mut args = Items::new(alloc);
    args.push(left)?;
    args.push(right)?;
    Ok(Expr::Prim { op, args })
}

// The body of `toString`.
fn text_of_this(alloc: Global) -> Result<Expr, AllocError>
    ensures { IfOk result (λ e. e ≡ to_string) }
{
    let has_none = binary(alloc, PrimOp::Same, message_of_this(alloc)?, Expr::Null)?;
    let colon = Expr::Text(plain_name(alloc, ": ")?);
    let front = binary(alloc, PrimOp::Concat, class_of_this(alloc)?, colon)?;
    let whole = binary(alloc, PrimOp::Concat, front, message_of_this(alloc)?)?;
    let class = class_of_this(alloc)?;
    Ok(Expr::If(
        Boxed::new(alloc, has_none)?,
        Boxed::new(alloc, class)?,
        Boxed::new(alloc, whole)?,
    ))
}
