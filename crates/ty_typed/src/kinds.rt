//! Of which kind the values of expressions are: one pass from the leaves up.

ghost use Rattle.std.specs.Prelude.{◌≡◌, map, take, option_to_list};
ghost use Rattle.ty_typed.specs.Kinds.{kinds_fit, value_kind, first_kind, all_kinds_fit, both, type_kinds, has, first_that_fits};
ghost use Rattle.ty_typed.specs.Scopes.{within, classes_of};
ghost use Rattle.ty_typed.specs.Stands.{common, numbers};
ghost use Rattle.ty_typed.specs.Types.{types_of, last_of, all_of, prim_types};
ghost use Rattle.ty_typed.specs.Parts.{list_of, types_of_each, types_of_case, types_of_handler};

use crate::operands::{Choices, Given, given_by, list_of};
use crate::plain::plain_type;
use crate::scope::Scope;
use crate::value_kinds::{KindsFit, ValueKind};
use sqlite_items::Items;
use ty_prog::{Case, Catch, Expr, PrimOp, Ty};

const EVERY: KindsFit = KindsFit {
    never: true,
    reference: true,
    unit: true,
    boolean: true,
    int: true,
    long: true,
    array: true,
};

const NONE: KindsFit = KindsFit {
    never: false,
    reference: false,
    unit: false,
    boolean: false,
    int: false,
    long: false,
    array: false,
};

/// The kind of the values of an expression; None where they are of several. The time is linear in the expression.
pub fn value_kind(scope: Scope<'_>, e: &Expr) -> Option<ValueKind>
    ensures { result ≡ value_kind (classes_of scope.entry) (within scope.entry types_of e.now) }
{
    first_kind(kinds_fit(scope, e))
}

// The first kind that fits.
fn first_kind(fit: KindsFit) -> Option<ValueKind>
    ensures { result ≡ first_kind fit }
{
    if fit.never {
        Some(ValueKind::Never)
    } else if fit.reference {
        Some(ValueKind::Reference)
    } else if fit.unit {
        Some(ValueKind::Unit)
    } else if fit.boolean {
        Some(ValueKind::Boolean)
    } else if fit.int {
        Some(ValueKind::Int)
    } else if fit.long {
        Some(ValueKind::Long)
    } else if fit.array {
        Some(ValueKind::Array)
    } else {
        None
    }
}

/// For which kinds the values of an expression may stand.
#[cycle(kinds)]
#[tactic(auto, using(crate::proofs::Meets::kinds_append))]
pub(crate) fn kinds_fit(scope: Scope<'_>, e: &Expr) -> KindsFit
    ensures { result ≡ kinds_fit (classes_of scope.entry) (within scope.entry types_of e.now) }
{
    match e {
        Expr::If(_, a, b) => both(kinds_fit(scope, a.get()), kinds_fit(scope, b.get())),
        Expr::Block(es) => last_kinds(scope, es),
        Expr::Try { body, handler, .. } => both(
            kinds_fit(scope, body.get()),
            handler_kinds(scope, handler),
        ),
        Expr::Match { cases, .. } => case_kinds(scope, cases),
        Expr::Prim { op, args } => some_kinds(scope, prim_type(scope, *op, args)),
        Expr::Int(_)
        | Expr::Long(_)
        | Expr::Bool(_)
        | Expr::Text(_)
        | Expr::Null
        | Expr::Unit
        | Expr::Local(_)
        | Expr::SetLocal(..)
        | Expr::This
        | Expr::Get { .. }
        | Expr::Put { .. }
        | Expr::Call { .. }
        | Expr::New { .. }
        | Expr::Convert { .. }
        | Expr::Equal(..)
        | Expr::TextOf(_)
        | Expr::Println(_)
        | Expr::While(..)
        | Expr::Throw(_)
        | Expr::Start(_)
        | Expr::LazyGet { .. }
        | Expr::ObjectGet(_)
        | Expr::SuperCall { .. }
        | Expr::Test { .. }
        | Expr::Cas { .. }
        | Expr::NewLatch(_)
        | Expr::OwnedHere(_)
        | Expr::Await(_)
        | Expr::CountDown(_)
        | Expr::StaticCall { .. }
        | Expr::ModuleGet(_)
        | Expr::SetModule(..) => some_kinds(scope, plain_type(scope, e)),
    }
}

// The kinds of the last of some statements.
#[cycle(kinds)]
fn last_kinds(scope: Scope<'_>, es: &Items<Expr>) -> KindsFit
    ensures { result ≡ kinds_fit (classes_of scope.entry) (last_of (within scope.entry types_of_each es.now)) }
{
    match es.as_slice() {
        [] => type_kinds(Ty::Unit),
        [.., last] => kinds_fit(scope, last),
    }
}

// The kinds of what a handler gives.
#[cycle(kinds)]
fn handler_kinds(scope: Scope<'_>, handler: &Option<Catch>) -> KindsFit
    ensures { result ≡ kinds_fit (classes_of scope.entry) (within scope.entry types_of_handler handler.now) }
{
    match handler {
        None => EVERY,
        Some(Catch::Cases(cases)) => case_kinds(scope, cases),
        Some(Catch::Any { local: _, body }) => kinds_fit(scope, body.get()),
    }
}

// The kinds that what each case gives has.
#[cycle(kinds)]
fn case_kinds(scope: Scope<'_>, cases: &Items<Case>) -> KindsFit
    ensures { result ≡ kinds_fit (classes_of scope.entry) (all_of (map (within scope.entry types_of_case) cases.now)) }
{
    let mut fit = EVERY;
    for c in cases.as_slice() {
        fit = both(fit, one_case_kinds(scope, c));
    }
    fit
}

// The kinds of what a case gives.
#[cycle(kinds)]
fn one_case_kinds(scope: Scope<'_>, c: &Case) -> KindsFit
    ensures { result ≡ kinds_fit (classes_of scope.entry) (within scope.entry types_of_case c.now) }
{
    kinds_fit(scope, &c.body)
}

/// The type of what an operator gives, if it has one.
#[cycle(kinds)]
pub(crate) fn prim_type(scope: Scope<'_>, op: PrimOp, args: &Items<Expr>) -> Option<Ty>
    ensures { option_to_list result ≡ prim_types (classes_of scope.entry) op (within scope.entry types_of_each args.now) }
{
    match given_by(op) {
        Given::Fixed(ty) => Some(ty),
        Given::OfAll(choices) => common_of_all(scope, choices, args),
        Given::OfFirst => first_number(scope, args),
    }
}

/// The first of some types for which the values of each of several expressions may stand.
#[cycle(kinds)]
#[tactic(auto, using(crate::proofs::Meets::common_by_kinds))]
pub(crate) fn common_of_all(scope: Scope<'_>, choices: Choices, args: &Items<Expr>) -> Option<Ty>
    ensures { result ≡ common (classes_of scope.entry) (list_of choices) (within scope.entry types_of_each args.now) }
{
    let fit = all_kinds_fit(scope, args);
    first_that_fits(list_of(choices), fit)
}

/// The first type of numbers for which the values of the first of several expressions may stand.
#[cycle(kinds)]
#[tactic(auto, using(crate::proofs::Meets::common_one))]
pub(crate) fn first_number(scope: Scope<'_>, args: &Items<Expr>) -> Option<Ty>
    ensures { result ≡ common (classes_of scope.entry) numbers (take 1 (within scope.entry types_of_each args.now)) }
{
    match args.as_slice() {
        [] => Some(Ty::Int),
        [e, ..] => number_of(kinds_fit(scope, e)),
    }
}

// The kinds that all of some expressions have.
#[cycle(kinds)]
fn all_kinds_fit(scope: Scope<'_>, args: &Items<Expr>) -> KindsFit
    ensures { result ≡ all_kinds_fit (classes_of scope.entry) (within scope.entry types_of_each args.now) }
{
    let mut fit = EVERY;
    for e in args.as_slice() {
        fit = both(fit, kinds_fit(scope, e));
    }
    fit
}

// The kinds that both have.
fn both(one: KindsFit, other: KindsFit) -> KindsFit
    ensures { result ≡ both one other }
{
    KindsFit {
        never: one.never && other.never,
        reference: one.reference && other.reference,
        unit: one.unit && other.unit,
        boolean: one.boolean && other.boolean,
        int: one.int && other.int,
        long: one.long && other.long,
        array: one.array && other.array,
    }
}

// The kinds for which a value of a type may stand.
fn type_kinds(ty: Ty) -> KindsFit
    ensures { result ≡ type_kinds ty }
{
    match ty {
        Ty::Nothing => EVERY,
        Ty::Unit => KindsFit { unit: true, ..NONE },
        Ty::Boolean => KindsFit {
            boolean: true,
            ..NONE
        },
        Ty::Int => KindsFit { int: true, ..NONE },
        Ty::Long => KindsFit { long: true, ..NONE },
        Ty::Array => KindsFit {
            array: true,
            ..NONE
        },
        Ty::Any | Ty::AnyRef | Ty::Null | Ty::Text | Ty::Class(_) => KindsFit {
            reference: true,
            ..NONE
        },
    }
}

// The kinds of a type, if there is one; else each, since there is no value.
#[tactic(auto, using(crate::proofs::Meets::kinds_of_one))]
fn some_kinds(scope: Scope<'_>, ty: Option<Ty>) -> KindsFit
    ensures { result ≡ kinds_fit (classes_of scope.entry) (option_to_list ty) }
{
    match ty {
        Some(ty) => type_kinds(ty),
        None => EVERY,
    }
}

// Int or Long, whichever fits first.
fn number_of(fit: KindsFit) -> Option<Ty>
    ensures { result ≡ first_that_fits numbers fit }
{
    if fit.int {
        Some(Ty::Int)
    } else if fit.long {
        Some(Ty::Long)
    } else {
        None
    }
}

// Whether the kind of a type is among those that fit.
fn has(fit: KindsFit, ty: Ty) -> bool
    ensures { result ≡ has fit ty }
{
    match ty {
        Ty::Nothing => fit.never,
        Ty::Any => fit.reference,
        Ty::Unit => fit.unit,
        Ty::Boolean => fit.boolean,
        Ty::Int => fit.int,
        Ty::Long => fit.long,
        Ty::Array => fit.array,
        Ty::AnyRef | Ty::Null | Ty::Text | Ty::Class(_) => false,
    }
}

// The first of some types whose kind fits.
fn first_that_fits(choices: &[Ty], fit: KindsFit) -> Option<Ty>
    ensures { result ≡ first_that_fits choices.now fit }
{
    for choice in choices {
        if has(fit, *choice) {
            return Some(*choice);
        }
    }
    None
}
