//! What the definitions of members, shapes and places entail, as laws.

ghost use Rattle.std.specs.Prelude.{◌≡◌, ◌≢◌, ℕ, List, [], ◌∷◌, ◌++◌, Some, None, slice_get};
ghost use Rattle.std.specs.Option.{option_and_then};
ghost use Rattle.std.specs.List.{AllByRecursion};
ghost use Rattle.ty_prog.specs.declared.class.Class.{Class};
ghost use Rattle.ty_prog.specs.Find.{own, first_in, behind, IsFirst, IsConcrete};
ghost use Rattle.ty_prog.specs.Tree.{Tree, children};
ghost use Rattle.ty_prog.specs.Node.{tree_at};
ghost use Rattle.ty_prog.specs.Shape.{shape};

/// The member of a name in a linearisation is the first class's own, and where that has none, the one in the rest
/// (SLS 5.1.3). What is found is there, with a body, not static, of this name, and nothing before it is.
pub fn inheriting()
    ensures own { (classes : List Class) (name : List ℕ) (class : ℕ) (linear : List ℕ) (found : ℕ × ℕ)
        → own classes name class ≡ Some found → first_in classes name (class ∷ linear) ≡ Some found }
    ensures inherited { (classes : List Class) (name : List ℕ) (class : ℕ) (linear : List ℕ)
        → own classes name class ≡ None → first_in classes name (class ∷ linear) ≡ first_in classes name linear }
    ensures first { (classes : List Class) (name linear : List ℕ) (found : ℕ × ℕ)
        → first_in classes name linear ≡ Some found → IsFirst classes name linear found }
    ensures concrete { (classes : List Class) (name linear : List ℕ) (found : ℕ × ℕ)
        → first_in classes name linear ≡ Some found → IsConcrete classes name found }
    ensures none { (classes : List Class) (name linear : List ℕ)
        → first_in classes name linear ≡ None → AllByRecursion (λ class. own classes name class ≡ None) linear }
    ensures behind { (before rest : List ℕ) (after : ℕ) → AllByRecursion (λ class. class ≢ after) before
        → behind after (before ++ after ∷ rest) ≡ rest }
{}

/// A tree is its shape and its children.
pub fn shaping()
    ensures { (one other : Tree) → shape one ≡ shape other → children one ≡ children other → one ≡ other }
{}

/// The node at a place is a child of the node at the place before; and the node at a joined place is the one that the
/// rest leads to from the one that the beginning leads to.
pub fn placing()
    ensures root { (tree : Tree) → tree_at tree [] ≡ Some tree }
    ensures child { (tree : Tree) (place : List ℕ) (i : ℕ)
        → tree_at tree (place ++ i ∷ []) ≡ option_and_then (λ t. slice_get (children t) i) (tree_at tree place) }
    ensures joined { (tree : Tree) (first rest : List ℕ)
        → tree_at tree (first ++ rest) ≡ option_and_then (λ t. tree_at t rest) (tree_at tree first) }
{}
