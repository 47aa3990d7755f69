//! The law of endings. Its function has an empty body: its contract is the law.

ghost use Rattle.std.specs.Prelude.{List, ◌≡◌, ℕ};
ghost use Rattle.runs.specs.declared.ending.Ending.{Ending};
ghost use Rattle.runs.specs.declared.turn.Turn.{Turn};
ghost use Rattle.runs.specs.Ends.{EndsAs, GivenEndsAs, EndsByState, NoneStuck, SomeMoves};
ghost use Rattle.runs.specs.System.{System};

/// A run that stops ends in one way, and where some thread can move and none is stuck the state tells no end.
pub fn one_ending<E, P, A>()
    ensures halting { (s : System E P A) (x : A) (one other : Ending) → EndsByState s x one → EndsByState s x other → one ≡ other }
    ensures moving { (s : System E P A) (x : A) (end : Ending) → EndsByState s x end → SomeMoves s x → NoneStuck s x → ⊥ }
    ensures ends { (s : System E P A) (left : ℕ) (x : A) (one other : Ending)
        → EndsAs s left x one → EndsAs s left x other → one ≡ other }
    ensures given { (s : System E P A) (turns : List Turn) (budget moves : ℕ) (x : A) (one other : Ending)
        → GivenEndsAs s turns budget moves x one → GivenEndsAs s turns budget moves x other → one ≡ other }
{}
