//! Laws of the forms of source that bring one tree each: literals, names, assignments, and the parts of a constructor.

ghost use Rattle.std.specs.Prelude.{ℕ, ◌≤◌, ◌≡◌, ◌+◌, ◌*◌, List, [], ◌∷◌};
ghost use Rattle.std.specs.List.{AllByRecursion};
ghost use Rattle.ty_prog.specs.declared.prim_op.PrimOp.{PrimOp};
ghost use Rattle.ty_prog.specs.declared.catch.Catch.TheOpen.{Expr-F};
ghost use Rattle.ty_room.specs.declared.size.Size.{Size};
ghost use Rattle.ty_room.specs.Forms.{tree, this, called, joined_texts};
ghost use Rattle.ty_room.specs.Source.{all_nodes, ExprWorth, AllWorth, leaves, added, local_set, member_set, other_set, member_of, superclass_args, field_set, dropped};

/// Literals and names take at most 31 bytes and fewer than 5 entries, for the one node that each is.
pub fn names_and_literals()
    ensures { (local : ℕ) → AllByRecursion (ExprWorth 1) (leaves local) }
{}

/// Definitions in a block, assignments, and assignments with an operator, over values of every size.
pub fn assignments()
    ensures definition { (local n : ℕ) (e : Size) → ExprWorth n e → ExprWorth (n + 1) (local_set local e) }
    ensures of_local { (local n : ℕ) (e : Size) → ExprWorth n e → ExprWorth (n + 2) (local_set local e) }
    ensures of_member { (n : ℕ) (e : Size) → ExprWorth n e → ExprWorth (n + 2) (member_set e) }
    ensures added_to_local { (local n : ℕ) (o : PrimOp) (e : Size) → ExprWorth n e
        → ExprWorth (n + 2) (local_set local (added o (tree (Expr-F.Local local)) e)) }
    ensures added_to_member { (n : ℕ) (o : PrimOp) (e : Size) → ExprWorth n e
        → ExprWorth (n + 2) (member_set (added o (called this []) e)) }
    ensures text_to_local { (local n : ℕ) (e : Size) → ExprWorth n e
        → ExprWorth (n + 2) (local_set local (joined_texts (tree (Expr-F.Local local)) e)) }
    ensures added_to_other { (local n m : ℕ) (o : PrimOp) (a e : Size) → ExprWorth n a → ExprWorth m e
        → ExprWorth (n + m + 2) (other_set local a (added o (member_of local) e)) }
    ensures text_to_other { (local n m : ℕ) (a e : Size) → ExprWorth n a → ExprWorth m e
        → ExprWorth (n + m + 2) (other_set local a (joined_texts (member_of local) e)) }
{}

/// The arguments of a superclass constructor with the node that their list is; statements, whose values are dropped; the
/// value of a field in the constructor, where no `try` stands in it.
pub fn constructor_parts()
    ensures superclass { (n : ℕ) (e : Size) (ns : List ℕ) (args : List Size) → ExprWorth n e → AllWorth ExprWorth ns args
        → (superclass_args (e ∷ args)).value ≤ 31 * (n + all_nodes ns + 1) }
    ensures statements { (ns : List ℕ) (es : List Size) → AllWorth ExprWorth ns es → dropped es ≤ 31 * all_nodes ns }
    ensures field { (n : ℕ) (e : Size) → ExprWorth n e → e.tries ≡ 0 → (field_set e).value + 1 ≤ 31 * n }
{}
