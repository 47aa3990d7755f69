//! What the definitions entail, as laws.

ghost use Rattle.std.specs.Prelude.{◌≡◌, ◌⊎◌, ◌↔◌, ℕ, List, Some, None, IsTrue};
ghost use Rattle.ty_prog.specs.declared.class.Class.{Class};
ghost use Rattle.ty_prog.specs.declared.program.Program.{Program};
ghost use Rattle.ty_prog.specs.declared.ty.Ty.{Ty};
ghost use Rattle.ty_prog.specs.declared.ty.Ty.TheVariants as ty;
ghost use Rattle.ty_prog.specs.Find.{find, super_find};
ghost use Rattle.ty_conform.specs.Conforms.{conforms, AreClosed, AreOneWay};
ghost use Rattle.ty_conform.specs.Carried.{HasLinearisations};
ghost use Rattle.ty_conform.specs.Found.{Finds, SuperFinds, FindsNone};
ghost use Rattle.ty_conform.specs.Join.{join, serves_as};

use ty_linear::linearisations;
use ty_prog::inheriting;

/// Conformance is an order (SLS 3.5.2): each type conforms to itself; what conforms to a type conforms to what that
/// conforms to, where linearisations have those of the classes in them; and no two types conform to each other, where
/// no two classes stand in each other's linearisations.
pub fn conformance()
    ensures reflexive { (classes : List Class) (type : Ty) → IsTrue (conforms classes type type) }
    ensures transitive { (classes : List Class) → AreClosed classes → (one two three : Ty)
        → IsTrue (conforms classes one two) → IsTrue (conforms classes two three) → IsTrue (conforms classes one three) }
    ensures antisymmetric { (classes : List Class) → AreOneWay classes → (one two : Ty)
        → IsTrue (conforms classes one two) → IsTrue (conforms classes two one) → one ≡ two }
{}

/// Each of two types conforms to their join, or is Int and widened to Long (SLS 6.16).
pub fn joins()
    ensures one { (classes : List Class) (one other : Ty) → IsTrue (serves_as classes one (join classes one other)) }
    ensures other { (classes : List Class) (one other : Ty) → IsTrue (serves_as classes other (join classes one other)) }
{}

/// What `find` and `super_find` give is the first concrete member of the name in the linearisation of the class, or in
/// what is behind the template there (SLS 5.1.3, 6.5); `find` gives none exactly where no class of it has one.
pub fn found_members()
    ensures found { (p : Program) (class : ℕ) (name : List ℕ) (found : ℕ × ℕ)
        → (find p class name ≡ Some found) ↔ Finds p class name found }
    ensures super_found { (p : Program) (class after : ℕ) (name : List ℕ) (found : ℕ × ℕ)
        → (super_find p class after name ≡ Some found) ↔ SuperFinds p class after name found }
    ensures none { (p : Program) (class : ℕ) (name : List ℕ) → (find p class name ≡ None) ↔ FindsNone p class name }
{
    inheriting();
}

/// A class that conforms to another finds a method of each name of which that one finds one (SLS 5.1.3), where
/// linearisations have those of the classes in them.
pub fn inherited_members()
    ensures { (p : Program) (lower upper : ℕ) (name : List ℕ) (found : ℕ × ℕ) → AreClosed p.classes
        → IsTrue (conforms p.classes (ty.Class lower) (ty.Class upper)) → find p upper name ≡ Some found
        → (other : ℕ × ℕ) × (find p lower name ≡ Some other) }
{}

/// Where each class carries its linearisation, each linearisation has those of the classes in it, and no two classes
/// stand in each other's (SLS 5.1.2): so conformance is an order, and what a class finds is found below it.
pub fn carried_linearisations()
    ensures closed { (p : Program) → HasLinearisations p → AreClosed p.classes }
    ensures one_way { (p : Program) → HasLinearisations p → AreOneWay p.classes }
{
    linearisations();
}
