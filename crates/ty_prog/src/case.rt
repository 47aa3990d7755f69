//! Cases.

ghost use Rattle.std.specs.Prelude.{◌≡◌};
ghost use Rattle.ty_prog.specs.declared.case.Case.{out-Case};

use crate::expr::Expr;
use crate::pattern::Pattern;

/// A case of a match or of a `catch` (SLS 8.4).
#[cycle(tree)]
#[derive(Debug, Drop)]
pub struct Case {
    pub pattern: Pattern,
    pub guard: Option<Expr>,
    pub body: Expr,
}

impl Case {
    /// A case of these parts.
    pub fn new(pattern: Pattern, guard: Option<Expr>, body: Expr) -> Case
        ensures pattern { (out-Case result).pattern ≡ pattern }
        ensures guard { (out-Case result).guard ≡ guard }
        ensures body { (out-Case result).body ≡ body }
    {
        Case {
            pattern,
            guard,
            body,
        }
    }
}
