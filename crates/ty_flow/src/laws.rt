//! What the definition of ways entails, as laws.

ghost use Rattle.std.specs.Prelude.{◌≡◌, ℕ, true, false, ◌||◌, ◌&&◌, not, List, [], ◌∷◌, Option, Some};
ghost use Rattle.ty_prog.specs.declared.expr.Expr.{Expr};
ghost use Rattle.ty_prog.specs.declared.expr.Expr.TheVariants as expr;
ghost use Rattle.ty_prog.specs.declared.prim_op.PrimOp.TheVariants as op;
ghost use Rattle.ty_prog.specs.declared.catch.Catch.{Catch};
ghost use Rattle.ty_flow.specs.declared.passage.Passage.{Passage};
ghost use Rattle.ty_flow.specs.declared.passage.CasePassage.{CasePassage};
ghost use Rattle.ty_flow.specs.Uses.{leaves, chosen, tested, first_of, sets, expr_passage};
ghost use Rattle.ty_flow.specs.Parts.{handler_passage};

/// A `Throw` reads what its part does, and leaves. A store reads what its part does, and sets. What a tree surely sets
/// isn't read by what follows it. What a handler reads first is read, whatever the body sets.
pub fn ways()
    ensures throw { (local : ℕ) (e : Expr) → (expr_passage local (expr.Throw e)).reads ≡ (expr_passage local e).reads }
    ensures leaves { (local : ℕ) (e : Expr) → sets (expr_passage local (expr.Throw e)) ≡ true }
    ensures store { (local : ℕ) (e : Expr) → (expr_passage local (expr.SetLocal local e)).reads ≡ (expr_passage local e).reads }
    ensures stored { (local : ℕ) (e : Expr) → sets (expr_passage local (expr.SetLocal local e)) ≡ true }
    ensures block { (local : ℕ) (a b : Expr) → sets (expr_passage local a) ≡ true
        → (expr_passage local (expr.Block (a ∷ b ∷ []))).reads ≡ (expr_passage local a).reads }
    ensures handler { (local : ℕ) (body : Expr) (handler : Catch) (last : Option Expr) → (handler_passage local handler).reads ≡ true
        → (expr_passage local (expr.Try body (Some handler) last)).reads ≡ true }
{}

/// A branch doesn't read what is set where its condition has that value, nor does the body of a loop; behind a loop
/// stands what is set where its condition is false. A conditional gives a value by either branch; a block by its last
/// part, unless one before it sets; `!` gives the other one; `true` is never false. So a test that stores what it
/// matched, as a pattern with a variable is lowered to, has set the variable where it is true.
pub fn conditions()
    ensures reads_where_false { (local : ℕ) (c a b : Expr) → (expr_passage local c).on_true ≡ true
        → (expr_passage local (expr.If c a b)).reads
        ≡ ((expr_passage local c).reads || (not (expr_passage local c).on_false && (expr_passage local b).reads)) }
    ensures reads_where_true { (local : ℕ) (c a b : Expr) → (expr_passage local c).on_false ≡ true
        → (expr_passage local (expr.If c a b)).reads
        ≡ ((expr_passage local c).reads || (not (expr_passage local c).on_true && (expr_passage local a).reads)) }
    ensures if_true { (local : ℕ) (c a b : Expr) → (expr_passage local (expr.If c a b)).on_true
        ≡ (((expr_passage local c).on_true || (expr_passage local a).on_true)
        && ((expr_passage local c).on_false || (expr_passage local b).on_true)) }
    ensures if_false { (local : ℕ) (c a b : Expr) → (expr_passage local (expr.If c a b)).on_false
        ≡ (((expr_passage local c).on_true || (expr_passage local a).on_false)
        && ((expr_passage local c).on_false || (expr_passage local b).on_false)) }
    ensures repeated { (local : ℕ) (c b : Expr) → sets (expr_passage local (expr.While c b)) ≡ (expr_passage local c).on_false }
    ensures repeating { (local : ℕ) (c b : Expr) → (expr_passage local c).on_true ≡ true
        → (expr_passage local (expr.While c b)).reads ≡ (expr_passage local c).reads }
    ensures last_true { (local : ℕ) (a b : Expr) → (expr_passage local (expr.Block (a ∷ b ∷ []))).on_true
        ≡ (sets (expr_passage local a) || (expr_passage local b).on_true) }
    ensures last_false { (local : ℕ) (a b : Expr) → (expr_passage local (expr.Block (a ∷ b ∷ []))).on_false
        ≡ (sets (expr_passage local a) || (expr_passage local b).on_false) }
    ensures not_true { (local : ℕ) (e : Expr) → (expr_passage local (expr.Prim op.Not (e ∷ []))).on_true ≡ (expr_passage local e).on_false }
    ensures not_false { (local : ℕ) (e : Expr) → (expr_passage local (expr.Prim op.Not (e ∷ []))).on_false ≡ (expr_passage local e).on_true }
    ensures always { (local : ℕ) → (expr_passage local (expr.Bool true)).on_false ≡ true }
    ensures never { (local : ℕ) → (expr_passage local (expr.Bool false)).on_true ≡ true }
    ensures matched { (local : ℕ) (c v : Expr)
        → (expr_passage local (expr.If c (expr.Block (expr.SetLocal local v ∷ expr.Bool true ∷ [])) (expr.Bool false))).on_true ≡ true }
{}

/// Cases that are tried in turn are conditionals, each the last branch of the one before; behind them no way ends.
pub fn cases()
    ensures first { (test body : Passage) (rest : List CasePassage) → first_of (tested test body ∷ rest) ≡ chosen test body (first_of rest) }
    ensures none { first_of [] ≡ leaves }
{}
