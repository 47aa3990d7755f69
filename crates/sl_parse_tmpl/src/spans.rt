//! Where trees stand.

ghost use Rattle.std.specs.Prelude.{◌≡◌};
ghost use Rattle.sl_parse_expr.specs.Spans.{span_or, last_span, expr_span};
ghost use Rattle.sl_parse_expr.specs.PatternTrees.{type_span};
ghost use Rattle.sl_parse_tmpl.specs.Trees as spec;

use sl_ast::{
    ClassModifier, Def, Expr, Ident, Member, MemberModifier, ParArgs, Params, Parents, TypeTree,
};
use sl_parse_expr::{expr_span, par_args_span, type_span};
use sl_text::Span;
use sqlite_items::Items;

/// Where an optional type stands, or what stands before it.
pub fn end_of_type(before: Span, ty: &Option<TypeTree>) -> Span
    ensures { result ≡ span_or type_span before ty.now }
{
    match ty {
        Some(ty) => type_span(ty),
        None => before,
    }
}

/// Where an optional right side stands, or what stands before it.
pub fn end_of_value(before: Span, value: &Option<Expr>) -> Span
    ensures { result ≡ span_or expr_span before value.now }
{
    match value {
        Some(value) => expr_span(value),
        None => before,
    }
}

/// Where the parameters of a class stand, or what stands before them.
pub fn end_of_params(before: Span, params: &Option<Params>) -> Span
    ensures { result ≡ span_or spec.params_span before params.now }
{
    match params {
        Some(params) => params.span,
        None => before,
    }
}

/// Where a definition stands.
pub fn def_span(def: &Def) -> Span
    ensures { result ≡ spec.def_span def.now }
{
    match def {
        Def::Val { span, .. }
        | Def::Var { span, .. }
        | Def::Lazy { span, .. }
        | Def::Def { span, .. } => *span,
    }
}

// Where a modifier of a member stands.
fn modifier_span(modifier: MemberModifier) -> Span
    ensures { result ≡ spec.modifier_span modifier }
{
    match modifier {
        MemberModifier::Override(span) | MemberModifier::Private(span) => span,
    }
}

/// Where the first modifier stands, or what stands behind them.
pub fn first_modifier(modifiers: &[MemberModifier], behind: Span) -> Span
    ensures { result ≡ spec.first_modifier modifiers.now behind }
{
    match modifiers {
        [] => behind,
        [first, ..] => modifier_span(*first),
    }
}

// Where a modifier of a class stands.
fn class_modifier_span(modifier: ClassModifier) -> Span
    ensures { result ≡ spec.class_modifier_span modifier }
{
    match modifier {
        ClassModifier::Sealed(span) | ClassModifier::Abstract(span) => span,
    }
}

/// Where the first modifier of a class stands, or what stands behind them.
pub fn first_class_modifier(modifiers: &[ClassModifier], behind: Span) -> Span
    ensures { result ≡ spec.first_class_modifier modifiers.now behind }
{
    match modifiers {
        [] => behind,
        [first, ..] => class_modifier_span(*first),
    }
}

/// Where `case` stands, or the word behind it.
pub fn or_else(word: Span, case: Option<Span>) -> Span
    ensures { result ≡ spec.or_else word case }
{
    match case {
        Some(span) => span,
        None => word,
    }
}

/// Whether `case` stands there.
pub fn is_there(case: Option<Span>) -> bool
    ensures { result ≡ spec.is_there case }
{
    match case {
        Some(_) => true,
        None => false,
    }
}

/// Whether a modifier stands there.
pub fn some(modifiers: &[ClassModifier]) -> bool
    ensures { result ≡ spec.some modifiers.now }
{
    match modifiers {
        [] => false,
        _ => true,
    }
}

// Where arguments stand, or what stands before them.
fn end_of_args(before: Span, args: &Option<ParArgs>) -> Span
    ensures { result ≡ span_or Rattle.sl_parse_expr.specs.Spans.par_args_span before args.now }
{
    match args {
        Some(args) => par_args_span(args),
        None => before,
    }
}

// Where the last of these names stands, or what stands before them.
fn last_name(before: Span, names: &Items<Ident>) -> Span
    ensures { result ≡ last_span spec.name_span before names.now }
{
    match names.get(names.len().saturating_sub(1)) {
        Some(name) => name.span,
        None => before,
    }
}

/// Where the parents end, or what stands before them.
pub fn end_of_parents(before: Span, parents: &Option<Parents>) -> Span
    ensures { result ≡ spec.parents_end before parents.now }
{
    match parents {
        Some(parents) => last_name(
            end_of_args(parents.first.span, &parents.args),
            &parents.traits,
        ),
        None => before,
    }
}

/// The members of a body, and where it ends or what stands before it.
pub fn end_of_body(
    before: Span,
    body: Option<(Items<Member>, Span)>,
) -> (Option<Items<Member>>, Span)
    ensures members { result.0 ≡ spec.body_of body }
    ensures end { result.1 ≡ spec.body_end before body }
{
    match body {
        Some((members, end)) => (Some(members), end),
        None => (None, before),
    }
}
