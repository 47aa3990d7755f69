//! The laws of runs and their waits. Each function has an empty body: its contract is the law.

ghost use Rattle.std.specs.Prelude.{List, [], ◌∷◌, ◌++◌, ◌≡◌, ◌≢◌, ℕ, ◌+◌, ◌<◌, ◌≤◌, ◌⊎◌, Option, Some, slice_get};
ghost use Rattle.runs.specs.declared.turn.Turn.{Turn};
ghost use Rattle.runs.specs.Made.{Made};
ghost use Rattle.runs.specs.Planned.{AreWhole, Given, HasQuantum, IsBadTurn, Moves, Plan, Planned, total};
ghost use Rattle.runs.specs.Simulates.{Comes};
ghost use Rattle.runs.specs.System.{AbsentHaveEnded, Goes, IsAbsent, put, reach, Reached, run, start, System, tries};
ghost use Rattle.runs.specs.Waiting.{Cycle, DoesWait, HasCycles, LeastCycle, WaitsForUnfinished};
ghost use Rattle.runs.specs.WaitTable.{IsReported, NoCycle, Tells};

/// A function that is changed at one number has the new value there, and the old ones elsewhere.
pub fn changes<X>()
    ensures same { (t : ℕ) (x : X) (f : ℕ → X) → put t x f t ≡ x }
    ensures other { (t : ℕ) (x : X) (f : ℕ → X) (u : ℕ) → u ≢ t → put t x f u ≡ f u }
{}

/// What the first state has and each step keeps holds of every state that a run comes to. `W` is the
/// type of the states that have it, each with what shows it.
pub fn invariants<E, P, A, W>()
    ensures { (s : System E P A) (state : W → A) (first : W) → state first ≡ s.first
        → ((w : W) (t : ℕ) (x : A) → s.next (state w) t ≡ Goes x → (v : W) × (state v ≡ x))
        → (turns : List Turn) → (w : W) × (state w ≡ (reach s turns).state) }
{}

/// A run over joined lists of turns goes on from where the first list ends, and a turn can be split in two. A
/// history of whole turns is whole where one more is, and leads to where that turn leads.
pub fn replay<E, P, A>()
    ensures joined { (s : System E P A) (xs ys : List Turn) → reach s (xs ++ ys) ≡ run s ys (reach s xs) }
    ensures split { (s : System E P A) (t m n : ℕ) (r : Reached A) → tries s t (m + n) r ≡ tries s t n (tries s t m r) }
    ensures whole { (s : System E P A) (xs ys : List Turn) (r : Reached A)
        → AreWhole s r xs → AreWhole s (run s xs r) ys → AreWhole s r (xs ++ ys) }
    ensures history { (s : System E P A) (history : List Turn) (t count n : ℕ) (x y : A)
        → AreWhole s (start s) history → (reach s history).state ≡ x → Made s t count x n y → 0 < n
        → ((reach s (history ++ record { thread = t; count = n } ∷ [])).state ≡ y)
        × AreWhole s (start s) (history ++ record { thread = t; count = n } ∷ []) }
{}

/// Moves that lead from one state to another are what tries make, up to where the thread can't move or enough
/// are made: what an inner loop owes that makes many at once.
pub fn batches<E, P, A>()
    ensures { (s : System E P A) (t n i count : ℕ) (x y : A) → Comes s t n i x y
        → n ≤ count → (n < count → Moves (s.next y t) → ⊥) → Made s t count x n y }
{}

/// A planned schedule keeps its budget, each of its turns has a move and makes all its moves, and the plan
/// and the budget allow no other. Where a thread that isn't there has ended, every plan with a positive
/// quantum has a schedule, whatever the budget. A bad turn is one of those that are given, and where the
/// schedule ends its thread isn't there.
pub fn plans<E, P, A>()
    ensures within { (s : System E P A) (plan : Plan) (budget : ℕ) (schedule : List Turn)
        → Planned s plan budget schedule → (total schedule ≤ budget) × AreWhole s (start s) schedule }
    ensures determined { (s : System E P A) (plan : Plan) (budget : ℕ) (one other : List Turn)
        → Planned s plan budget one → Planned s plan budget other → one ≡ other }
    ensures scheduled { (s : System E P A) (plan : Plan) (budget : ℕ) → HasQuantum plan
        → ((turns : List Turn) → AbsentHaveEnded s (reach s turns).state)
        → (schedule : List Turn) × Planned s plan budget schedule }
    ensures bad_turn { (s : System E P A) (turns : List Turn) (budget i : ℕ) → IsBadTurn s turns budget i
        → (schedule : List Turn) → Planned s (Given turns) budget schedule
        → (turn : Turn) × (slice_get turns i ≡ Some turn) × IsAbsent s (reach s schedule).state turn.thread }
{}

/// Where each thread that waits waits for an unfinished one, some wait in a cycle.
pub fn cycles<E, P, A>()
    ensures { (s : System E P A) → ((turns : List Turn) → AbsentHaveEnded s (reach s turns).state)
        → ((turns : List Turn) → WaitsForUnfinished s (reach s turns).state) → HasCycles s }
{}

/// A state has at most one least cycle, and where finitely many threads wait it has one, or no cycle at all.
pub fn least_cycle<E, P, A>()
    ensures determined { (s : System E P A) (x : A) (one other : List ℕ)
        → LeastCycle s x one → LeastCycle s x other → one ≡ other }
    ensures decided { (s : System E P A) (x : A) (n : ℕ) → ((t : ℕ) → DoesWait s x t → t ≤ n)
        → ((ts : List ℕ) × LeastCycle s x ts) ⊎ ((ts : List ℕ) → Cycle s x ts → ⊥) }
{}

/// A table that tells who waits for whom in a state has the state's least cycle to report, or none where the
/// state has none.
pub fn told_cycles<E, P, A>()
    ensures least { (s : System E P A) (x : A) (table : List (Option ℕ)) → Tells s x table
        → (ts : List ℕ) → IsReported table ts → LeastCycle s x ts }
    ensures none { (s : System E P A) (x : A) (table : List (Option ℕ)) → Tells s x table
        → NoCycle table → (ts : List ℕ) → Cycle s x ts → ⊥ }
{}
