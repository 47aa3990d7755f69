//! Whether the last tokens of a tree are a `new` with no suffix behind.

ghost use Rattle.std.specs.Prelude.{◌≡◌};
ghost use Rattle.sl_parse_expr.specs.LastNew as spec;

use sl_ast::{Expr, Head, Infix, Prefix, Stat};

/// Whether a `new` with no suffix is the last of an expression (SLS 5.1.1, 6.10). Neither `{` nor one line end and `{` may
/// stand behind it.
#[tactic(auto, unfolding(crate::specs::LastNew::ends_in_new, crate::specs::LastNew::infix_ends_in_new))]
pub fn ends_in_new(expr: &Expr) -> bool
    ensures { result ≡ spec.ends_in_new expr.now }
{
    match expr {
        Expr::If {
            body,
            alternative,
            ..
        } => match alternative {
            Some(other) => ends_in_new(other.get()),
            None => ends_in_new(body.get()),
        },
        Expr::Try {
            body,
            cases,
            last,
            ..
        } => match (cases, last) {
            (_, Some(other)) => ends_in_new(other.get()),
            (Some(_), None) => false,
            (None, None) => ends_in_new(body.get()),
        },
        Expr::While { body, .. } => ends_in_new(body.get()),
        Expr::Throw { of, .. } => ends_in_new(of.get()),
        Expr::Match { .. } => false,
        Expr::Assign { value, .. } => ends_in_new(value.get()),
        Expr::Infix(inner) => infix_ends_in_new(inner),
    }
}

// Whether an infix expression ends in a bare `new`.
#[tactic(auto)]
fn infix_ends_in_new(tree: &Infix) -> bool
    ensures { result ≡ spec.infix_ends_in_new tree.now }
{
    match tree.rest.get(tree.rest.len().saturating_sub(1)) {
        Some(operation) => prefix_ends_in_new(&operation.operand),
        None => prefix_ends_in_new(&tree.first),
    }
}

// Whether a prefix expression ends in a bare `new`.
#[tactic(auto, unfolding(crate::specs::LastNew::prefix_ends_in_new))]
fn prefix_ends_in_new(prefix: &Prefix) -> bool
    ensures { result ≡ spec.prefix_ends_in_new prefix.now }
{
    match &prefix.simple.head {
        Head::New { .. } => prefix.simple.suffixes.len() == 0,
        _ => false,
    }
}

/// The same of a statement.
#[tactic(auto, unfolding(crate::specs::LastNew::stat_ends_in_new, crate::specs::LastNew::ends_in_new))]
pub fn stat_ends_in_new(stat: &Stat) -> bool
    ensures { result ≡ spec.stat_ends_in_new stat.now }
{
    match stat {
        Stat::Local { value, .. } => ends_in_new(value.get()),
        Stat::Expr(expr) => ends_in_new(expr),
    }
}
