//! Whether the parts of statements and branches are typed.

ghost use Rattle.std.specs.Prelude.{◌≡◌, ◌&&◌, true, option_map};
ghost use Rattle.std.specs.List.{list_all};
ghost use Rattle.std.specs.Option.{unwrap_or};
ghost use Rattle.ty_prog.specs.declared.catch.Catch.TheOpen.{Expr-F};
ghost use Rattle.ty_prog.specs.declared.ty.Ty.TheVariants as ty;
ghost use Rattle.ty_typed.specs.NodeTyped.{expr_fits, has_text, is_dropped, drops_all_but_last, cases_hold, expr_typed, handler_typed, some_dropped};
ghost use Rattle.ty_typed.specs.Types.{types_of};
ghost use Rattle.ty_typed.specs.Looked.{looked_types};
ghost use Rattle.ty_typed.specs.Scopes.{within};

use crate::expressions::{all_suit, expr_fits};
use crate::looking::{Looked, has_one, takes};
use crate::operands::Choices;
use crate::pattern::pattern_holds;
use crate::scope::Scope;
use crate::wanting::Wanted;
use sqlite_items::{Boxed, Items};
use ty_conform::is_known;
use ty_prog::prelude_number::THROWABLE;
use ty_prog::{Case, Catch, Expr, Ty};

/// Whether an expression has a value that has a text and can be compared.
pub(crate) fn has_text(scope: Scope<'_>, e: &Expr) -> bool
    ensures { result ≡ within scope.entry has_text e.now }
{
    has_one(scope, Choices::Compared, e)
}

/// Whether what is printed, if anything, has a text.
pub(crate) fn prints(scope: Scope<'_>, e: &Option<Boxed<Expr>>) -> bool
    ensures { result ≡ unwrap_or (option_map (within scope.entry has_text) e.now) true }
{
    match e {
        Some(e) => has_text(scope, e.get()),
        None => true,
    }
}

/// Whether the value of an expression may be dropped.
pub(crate) fn is_dropped(scope: Scope<'_>, e: &Expr) -> bool
    ensures { result ≡ within scope.entry is_dropped e.now }
{
    has_one(scope, Choices::Kinds, e)
}

/// Whether the values of several expressions may be dropped.
pub(crate) fn all_dropped(scope: Scope<'_>, es: &[Expr]) -> bool
    ensures { result ≡ list_all (within scope.entry is_dropped) es.now }
{
    for e in es {
        if !is_dropped(scope, e) {
            return false;
        }
    }
    true
}

/// Whether the values of several expressions but the last may be dropped.
pub(crate) fn drops_all_but_last(scope: Scope<'_>, es: &[Expr]) -> bool
    ensures { result ≡ within scope.entry drops_all_but_last es.now }
{
    let mut rest = es;
    while let Some((e, more)) = rest.split_first() {
        if more.is_empty() {
            return true;
        }
        if !is_dropped(scope, e) {
            return false;
        }
        rest = more;
    }
    true
}

/// Whether a condition is one, and the value of what it repeats may be dropped.
pub(crate) fn while_typed(scope: Scope<'_>, condition: &Expr, body: &Expr) -> bool
    ensures { result ≡ (within scope.entry expr_fits condition.now ty.Boolean && within scope.entry is_dropped body.now) }
{
    expr_fits(scope, condition, Ty::Boolean) && is_dropped(scope, body)
}

/// Whether a type is there, and each value of an expression can be made one of it.
pub(crate) fn convert_typed(scope: Scope<'_>, to: Ty, of: &Expr) -> bool
    ensures { result ≡ within scope.entry expr_typed (Expr-F.Convert to of.now) }
{
    is_known(scope.program.classes.as_slice(), to)
        && is_dropped(scope, of)
        && all_suit(scope, of, Wanted::Converts(to))
}

/// Whether the patterns of cases hold of an expression that has a value.
pub(crate) fn match_typed(scope: Scope<'_>, of: &Expr, cases: &[Case]) -> bool
    ensures { result ≡ (within scope.entry is_dropped of.now && within scope.entry cases_hold (within scope.entry types_of of.now) cases.now) }
{
    is_dropped(scope, of) && cases_hold(scope, Looked::At(of), cases)
}

fn cases_hold(scope: Scope<'_>, looked: Looked<'_>, cases: &[Case]) -> bool
    ensures { result ≡ within scope.entry cases_hold (within scope.entry looked_types looked.entry) cases.now }
{
    for c in cases {
        if !pattern_holds(scope, &c.pattern, looked) {
            return false;
        }
    }
    true
}

/// Whether a handler looks at a Throwable, and the value of what comes last may be dropped.
pub(crate) fn try_typed(
    scope: Scope<'_>,
    handler: &Option<Catch>,
    last: &Option<Boxed<Expr>>,
) -> bool
    ensures { result ≡ (within scope.entry handler_typed handler.now && within scope.entry some_dropped last.now) }
{
    handler_typed(scope, handler) && some_dropped(scope, last)
}

fn handler_typed(scope: Scope<'_>, handler: &Option<Catch>) -> bool
    ensures { result ≡ within scope.entry handler_typed handler.now }
{
    let thrown = Looked::Is(Ty::Class(THROWABLE));
    match handler {
        None => true,
        Some(Catch::Cases(cases)) => cases_hold(scope, thrown, cases.as_slice()),
        Some(Catch::Any { local, body: _ }) => takes(scope, *local, thrown),
    }
}

fn some_dropped(scope: Scope<'_>, e: &Option<Boxed<Expr>>) -> bool
    ensures { result ≡ within scope.entry some_dropped e.now }
{
    match e {
        Some(e) => is_dropped(scope, e.get()),
        None => true,
    }
}
