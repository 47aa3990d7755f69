//! What the definition of a linearisation entails, as laws.

ghost use Rattle.std.specs.Prelude.{◌≡◌, ◌≢◌, ◌⊎◌, ◌↔◌, ℕ, List, ◌∷◌};
ghost use Rattle.std.specs.List.{AllPairs, Contains};
ghost use Rattle.ty_linear.specs.Linear.{IsLinearisation, IsAncestor, IsAcyclic};

/// A linearisation begins with its class, has no class twice, and has exactly the class and its ancestors. A class has
/// at most one, and only if it is not its own ancestor; where no class is its own ancestor, each class has one.
pub fn linearisations()
    ensures first { (parents : List (List ℕ)) (class : ℕ) (list : List ℕ) → IsLinearisation parents class list
        → (above : List ℕ) × (list ≡ class ∷ above) }
    ensures distinct { (parents : List (List ℕ)) (class : ℕ) (list : List ℕ) → IsLinearisation parents class list
        → AllPairs (λ one other. one ≢ other) list }
    ensures members { (parents : List (List ℕ)) (class : ℕ) (list : List ℕ) → IsLinearisation parents class list
        → (member : ℕ) → Contains list member ↔ ((member ≡ class) ⊎ IsAncestor parents member class) }
    ensures only { (parents : List (List ℕ)) (class : ℕ) (one other : List ℕ) → IsLinearisation parents class one
        → IsLinearisation parents class other → one ≡ other }
    ensures acyclic { (parents : List (List ℕ)) (class : ℕ) (list : List ℕ) → IsLinearisation parents class list
        → ¬ (IsAncestor parents class class) }
    ensures exists { (parents : List (List ℕ)) → IsAcyclic parents → (class : ℕ)
        → (list : List ℕ) × IsLinearisation parents class list }
{}
