//! Whether the last tokens of a member are a `new` with no suffix behind (SLS 5.1.1).

ghost use Rattle.std.specs.Prelude.{◌≡◌};
ghost use Rattle.sl_parse_tmpl.specs.LastNew as spec;

use sl_ast::{Def, Expr, Member};
use sl_parse_expr::ends_in_new;

// Whether an optional right side ends in a bare `new`.
fn value_ends_in_new(value: &Option<Expr>) -> bool
    ensures { result ≡ spec.value_ends_in_new value.now }
{
    match value {
        Some(expr) => ends_in_new(expr),
        None => false,
    }
}

// Whether a definition ends in a bare `new`.
fn def_ends_in_new(def: &Def) -> bool
    ensures { result ≡ spec.def_ends_in_new def.now }
{
    match def {
        Def::Val { value, .. } => value_ends_in_new(value),
        Def::Var { value, .. } => ends_in_new(value),
        Def::Lazy { value, .. } => ends_in_new(value),
        Def::Def { value, .. } => value_ends_in_new(value),
    }
}

/// Whether a `new` with no suffix is the last of a member.
pub fn member_ends_in_new(member: &Member) -> bool
    ensures { result ≡ spec.member_ends_in_new member.now }
{
    match member {
        Member::Def { def, .. } => def_ends_in_new(def),
        Member::Expr(expr) => ends_in_new(expr),
    }
}
