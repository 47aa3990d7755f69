//! Where trees stand.

ghost use Rattle.std.specs.Prelude.{◌≡◌};
ghost use Rattle.sl_parse_expr.specs.Spans as spec;
ghost use Rattle.sl_parse_expr.specs.PatternTrees as patterns;
ghost use Rattle.sl_parse_expr.specs.Trees as trees;

use sl_ast::{
    Args, Block, Cases, Expr, Head, Infix, Literal, Operation, ParArgs, Pat, PatS, Prefix, Simple,
    Stat, Suffix, TypeTree, Wildcard,
};
use sl_text::Span;
use sqlite_items::{Boxed, Items};

/// From the first character of one to the last of another.
pub fn join(from: Span, to: Span) -> Span
    ensures { result ≡ spec.join from to }
{
    Span {
        from: from.from,
        to: to.to,
    }
}

/// Where an expression stands.
#[tactic(auto, unfolding(crate::specs::Spans::expr_span))]
pub fn expr_span(expr: &Expr) -> Span
    ensures { result ≡ spec.expr_span expr.now }
{
    match expr {
        Expr::If { span, .. }
        | Expr::While { span, .. }
        | Expr::Try { span, .. }
        | Expr::Throw { span, .. }
        | Expr::Match { span, .. }
        | Expr::Assign { span, .. } => *span,
        Expr::Infix(inner) => infix_span(inner),
    }
}

/// Where arguments in parentheses stand.
#[tactic(auto, unfolding(crate::specs::Spans::par_args_span))]
pub fn par_args_span(args: &ParArgs) -> Span
    ensures { result ≡ spec.par_args_span args.now }
{
    args.span
}

/// Where a simple expression stands.
#[tactic(auto, unfolding(crate::specs::Spans::simple_span))]
pub fn simple_span(simple: &Simple) -> Span
    ensures { result ≡ spec.simple_span simple.now }
{
    simple.span
}

/// Where a prefix expression stands.
#[tactic(auto, unfolding(crate::specs::Spans::prefix_span))]
pub fn prefix_span(prefix: &Prefix) -> Span
    ensures { result ≡ spec.prefix_span prefix.now }
{
    prefix.span
}

/// Where an infix expression stands.
#[tactic(auto, unfolding(crate::specs::Spans::infix_span))]
pub fn infix_span(tree: &Infix) -> Span
    ensures { result ≡ spec.infix_span tree.now }
{
    tree.span
}

/// Where a literal stands.
#[tactic(auto, unfolding(crate::specs::Spans::literal_span))]
pub fn literal_span(literal: &Literal) -> Span
    ensures { result ≡ spec.literal_span literal.now }
{
    match literal {
        Literal::Number(_, span)
        | Literal::Text(_, span)
        | Literal::True(span)
        | Literal::False(span)
        | Literal::Null(span) => *span,
    }
}

/// Where a head stands.
#[tactic(auto, unfolding(crate::specs::Spans::head_span))]
pub fn head_span(head: &Head) -> Span
    ensures { result ≡ spec.head_span head.now }
{
    match head {
        Head::Literal(literal) => literal_span(literal),
        Head::Id(name) => name.span,
        Head::This(span)
        | Head::Super { span, .. }
        | Head::New { span, .. }
        | Head::Parens { span, .. }
        | Head::Block { span, .. } => *span,
    }
}

/// Where a suffix stands.
#[tactic(auto, unfolding(crate::specs::Spans::suffix_span))]
pub fn suffix_span(suffix: &Suffix) -> Span
    ensures { result ≡ spec.suffix_span suffix.now }
{
    match suffix {
        Suffix::Select(name) => name.span,
        Suffix::Apply(Args::Parens(args)) => par_args_span(args),
        Suffix::Apply(Args::Block { span, .. }) => *span,
    }
}

/// Where a statement stands.
#[tactic(auto, unfolding(crate::specs::Spans::stat_span))]
pub fn stat_span(stat: &Stat) -> Span
    ensures { result ≡ spec.stat_span stat.now }
{
    match stat {
        Stat::Local { span, .. } => *span,
        Stat::Expr(expr) => expr_span(expr),
    }
}

/// Where an operation's operand stands.
#[tactic(auto, unfolding(crate::specs::Spans::operation_span))]
pub fn operation_span(operation: &Operation) -> Span
    ensures { result ≡ spec.operation_span operation.now }
{
    prefix_span(&operation.operand)
}

/// Where the last suffix stands, or what stands before them.
pub fn last_suffix(before: Span, suffixes: &Items<Suffix>) -> Span
    ensures { result ≡ spec.last_span spec.suffix_span before suffixes.now }
{
    match suffixes.get(suffixes.len().saturating_sub(1)) {
        Some(suffix) => suffix_span(suffix),
        None => before,
    }
}

/// Where the last operand stands, or what stands before them.
pub fn last_operation(before: Span, operations: &Items<Operation>) -> Span
    ensures { result ≡ spec.last_span spec.operation_span before operations.now }
{
    match operations.get(operations.len().saturating_sub(1)) {
        Some(operation) => operation_span(operation),
        None => before,
    }
}

/// Where the last statement of a block stands, or what stands before it.
#[tactic(auto, unfolding(crate::specs::Spans::block_stats))]
pub fn last_stat(before: Span, block: &Block) -> Span
    ensures { result ≡ spec.last_span spec.stat_span before (spec.block_stats block.now) }
{
    match block.stats.get(block.stats.len().saturating_sub(1)) {
        Some(stat) => stat_span(stat),
        None => before,
    }
}

/// Where an optional expression stands, or what stands before it.
pub fn end_of_expr(before: Span, expr: &Option<Boxed<Expr>>) -> Span
    ensures { result ≡ spec.span_or spec.expr_span before expr.now }
{
    match expr {
        Some(expr) => expr_span(expr.get()),
        None => before,
    }
}

/// The cases of a handler, and where they end or what stands before them.
pub fn end_of_cases(before: Span, handler: Option<(Cases, Span)>) -> (Option<Cases>, Span)
    ensures cases { result.0 ≡ trees.cases_of handler }
    ensures end { result.1 ≡ trees.end_of before handler }
{
    match handler {
        Some((cases, end)) => (Some(cases), end),
        None => (None, before),
    }
}

/// Where a type stands.
#[tactic(auto, unfolding(crate::specs::PatternTrees::type_span))]
pub fn type_span(ty: &TypeTree) -> Span
    ensures { result ≡ patterns.type_span ty.now }
{
    match ty {
        TypeTree::Name(name) => name.span,
        TypeTree::Applied { span, .. } => *span,
    }
}

/// Where a name or `_` stands.
#[tactic(auto, unfolding(crate::specs::PatternTrees::wildcard_span))]
pub fn wildcard_span(name: &Wildcard) -> Span
    ensures { result ≡ patterns.wildcard_span name.now }
{
    match name {
        Wildcard::Id(name) => name.span,
        Wildcard::Any(span) => *span,
    }
}

/// Where a simple pattern stands.
#[tactic(auto, unfolding(crate::specs::PatternTrees::simple_pattern_span))]
pub fn simple_pattern_span(pattern: &PatS) -> Span
    ensures { result ≡ patterns.simple_pattern_span pattern.now }
{
    match pattern {
        PatS::Any(span)
        | PatS::Literal { span, .. }
        | PatS::Id { span, .. }
        | PatS::Parens { span, .. } => *span,
    }
}

/// Where an alternative stands.
#[tactic(auto, unfolding(crate::specs::PatternTrees::pat_span))]
pub fn pat_span(pattern: &Pat) -> Span
    ensures { result ≡ patterns.pat_span pattern.now }
{
    match pattern {
        Pat::Typed { span, .. } | Pat::Named { span, .. } => *span,
        Pat::Simple(simple) => simple_pattern_span(simple),
    }
}

/// Where the last alternative stands, or what stands before them.
pub fn last_pat(before: Span, alternatives: &Items<Pat>) -> Span
    ensures { result ≡ spec.last_span patterns.pat_span before alternatives.now }
{
    match alternatives.get(alternatives.len().saturating_sub(1)) {
        Some(pattern) => pat_span(pattern),
        None => before,
    }
}
