//! Laws of the grammar. Each function has an empty body: its contract is the law.

ghost use Rattle.std.specs.Prelude.{◌≡◌, ◌+◌, ◌++◌, ℕ, List, [], Ok};
ghost use Rattle.sl_ast.specs.declared.expr.Expr.{Expr};
ghost use Rattle.sl_ast.specs.declared.token.Token.{Token};
ghost use Rattle.sl_parse_expr.specs.Grammar.{IsExpr};
ghost use Rattle.sl_parse_expr.specs.Levels as spec;
ghost use Rattle.sl_parse_expr.specs.Phrases.{Pending};
ghost use Rattle.sl_parse_expr.specs.Until.{IsExprUntil};

/// Each expression of the grammar is read, with what is left behind it. Tokens begin with at most one expression, however
/// deep it nests.
pub fn expressions()
    ensures read { (n : ℕ) (found : Expr) (tokens left : List Token) → IsExpr n found tokens left
        → (held : List Token) × (rest : List Token) × Pending held × (held ++ rest ≡ left) × (spec.expr n ([], tokens) ≡ Ok (found, (held, rest))) }
    ensures one { (n m : ℕ) (found other : Expr) (tokens left rest : List Token) → IsExpr n found tokens left → IsExpr m other tokens rest
        → (found ≡ other) × (left ≡ rest) }
{}

/// What nests at most n deep until k tokens are left, and m deeper there, nests at most m + n deep.
pub fn depths()
    ensures sum { (k m n : ℕ) (found : Expr) (tokens left : List Token) → IsExprUntil k m n found tokens left → IsExpr (m + n) found tokens left }
{}
