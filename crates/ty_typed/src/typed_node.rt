//! Whether a node is typed: each of its parts has the type that its place wants (SLS 6, 8).

ghost use Rattle.std.specs.Prelude.{◌≡◌, option_map};
ghost use Rattle.std.specs.Option.{unwrap_or};
ghost use Rattle.ty_prog.specs.declared.case.Case.{out-Case};
ghost use Rattle.ty_prog.specs.declared.expr.Expr.{out-Expr};
ghost use Rattle.ty_prog.specs.declared.pattern.Pattern.{out-Pattern};
ghost use Rattle.ty_prog.specs.declared.ty.Ty.TheVariants as ty;
ghost use Rattle.ty_prog.specs.Tree.{CaseTree, ConstructorTree};
ghost use Rattle.ty_prog.specs.Node.{tree_of};
ghost use Rattle.ty_typed.specs.NodeTyped.{node_typed, expr_typed, pattern_typed, is_literal};
ghost use Rattle.ty_typed.specs.Scopes.{within};

use crate::arguments::{class_takes, super_takes};
use crate::branches::{
    all_dropped, convert_typed, drops_all_but_last, has_text, match_typed, prints, try_typed,
    while_typed,
};
use crate::expressions::expr_fits;
use crate::looking::{Looked, have_one, takes};
use crate::members_used::{
    call_typed, cas_typed, get_typed, lazy_typed, module_typed, put_typed, static_typed,
    super_typed, test_typed,
};
use crate::operand_types::operands_fit;
use crate::operands::Choices;
use crate::plain::local_type;
use crate::scope::Scope;
use ty_conform::is_object;
use ty_prog::prelude_number::{THREAD, THROWABLE};
use ty_prog::{Case, Class, Expr, Node, Pattern, Ty};

/// Whether each part of a node has the type that its place wants.
pub fn node_typed(scope: Scope<'_>, node: Node<'_>) -> bool
    ensures { result ≡ within scope.entry node_typed (tree_of node.entry) }
{
    match node {
        Node::Expr(e) => expr_typed(scope, e),
        Node::Case(c) => case_typed(scope, c),
        Node::Pattern(pattern) => pattern_typed(scope, pattern),
        Node::Constructor(class) => constructor_typed(scope, class),
        Node::Stage(_) => true,
    }
}

// Whether the parts of an expression have the types that it wants.
fn expr_typed(scope: Scope<'_>, e: &Expr) -> bool
    ensures { result ≡ within scope.entry expr_typed (out-Expr e.now) }
{
    match e {
        Expr::Int(_) | Expr::Long(_) | Expr::Bool(_) | Expr::Text(_) | Expr::Null | Expr::Unit =>
            true,
        Expr::Local(local) => local_type(scope.locals, *local).is_some(),
        Expr::SetLocal(local, e) => takes(scope, *local, Looked::At(e.get())),
        Expr::This => scope.this.is_some(),
        Expr::Get { of, class, field } => get_typed(scope, of.get(), *class, *field),
        Expr::Put {
            of,
            class,
            field,
            value,
        } => put_typed(scope, of.get(), *class, *field, value.get()),
        Expr::Call {
            of,
            class,
            method,
            args,
        } => call_typed(scope, of.get(), *class, *method, args),
        Expr::New { class, args } => class_takes(scope, *class, args),
        Expr::Prim { op, args } => operands_fit(scope, *op, args),
        Expr::Convert { to, of } => convert_typed(scope, *to, of.get()),
        Expr::Equal(a, b) => have_one(scope, Choices::Compared, Looked::At(a.get()), b.get()),
        Expr::TextOf(e) => has_text(scope, e.get()),
        Expr::Println(e) => prints(scope, e),
        Expr::If(condition, _, _) => expr_fits(scope, condition.get(), Ty::Boolean),
        Expr::While(condition, body) => while_typed(scope, condition.get(), body.get()),
        Expr::Block(es) => drops_all_but_last(scope, es.as_slice()),
        Expr::Try { handler, last, .. } => try_typed(scope, handler, last),
        Expr::Throw(e) => expr_fits(scope, e.get(), Ty::Class(THROWABLE)),
        Expr::Start(e) => expr_fits(scope, e.get(), Ty::Class(THREAD)),
        Expr::Match { of, cases } => match_typed(scope, of.get(), cases.as_slice()),
        Expr::LazyGet { of, class, cell } => lazy_typed(scope, of.get(), *class, *cell),
        Expr::ObjectGet(class) | Expr::ModuleGet(class) => {
            is_object(scope.program.classes.as_slice(), *class)
        }
        Expr::SuperCall { after, name, args } => super_typed(scope, *after, name, args),
        Expr::Test { of, test } => test_typed(scope, of.get(), *test),
        Expr::Cas {
            of,
            class,
            field,
            old,
            new,
        } => cas_typed(scope, of.get(), *class, *field, old.get(), new.get()),
        Expr::NewLatch(e) | Expr::OwnedHere(e) | Expr::Await(e) | Expr::CountDown(e) => expr_fits(
            scope,
            e.get(),
            Ty::Any,
        ),
        Expr::StaticCall {
            class,
            method,
            args,
        } => static_typed(scope, *class, *method, args),
        Expr::SetModule(class, e) => module_typed(scope, *class, e.get()),
    }
}

// Whether the parts of a case have.
fn case_typed(scope: Scope<'_>, c: &Case) -> bool
    ensures { result ≡ within scope.entry node_typed (CaseTree c.now) }
{
    match &c.guard {
        Some(guard) => expr_fits(scope, guard, Ty::Boolean),
        None => true,
    }
}

// Whether the parts of a pattern have.
fn pattern_typed(scope: Scope<'_>, pattern: &Pattern) -> bool
    ensures { result ≡ within scope.entry pattern_typed (out-Pattern pattern.now) }
{
    match pattern {
        Pattern::Literal(e) => is_literal(e.get()),
        Pattern::Any
        | Pattern::Bind(..)
        | Pattern::OfType(_)
        | Pattern::Object(_)
        | Pattern::Make { .. }
        | Pattern::Either(_) => true,
    }
}

fn is_literal(e: &Expr) -> bool
    ensures { result ≡ is_literal (out-Expr e.now) }
{
    matches!(
        e,
        Expr::Int(_) | Expr::Long(_) | Expr::Bool(_) | Expr::Text(_) | Expr::Null
    )
}

// Whether the parts of a constructor have.
fn constructor_typed(scope: Scope<'_>, class: &Class) -> bool
    ensures { result ≡ within scope.entry node_typed (ConstructorTree class.now) }
{
    super_takes(scope, class) && all_dropped(scope, class.body.as_slice())
}
