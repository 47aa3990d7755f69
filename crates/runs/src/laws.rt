//! The laws of refinement. Each function has an empty body: its contract is the law.

ghost use Rattle.std.specs.Prelude.{◌≡◌, ◌≢◌, ℕ, ◌+◌, ◌*◌, ◌^◌, ◌≤◌, Bool, List};
ghost use Rattle.runs.specs.declared.turn.Turn.{Turn};
ghost use Rattle.runs.specs.Matches.{Matches, MatchesByParts, Parts};
ghost use Rattle.runs.specs.Quiet.{MatchesQuietly};
ghost use Rattle.runs.specs.Refines.{Agree, Implements, Refines};
ghost use Rattle.runs.specs.SharedHeap.{HeapState, SharedHeap, system_of};
ghost use Rattle.runs.specs.Simulates.{AgreePlainly, AreReached, Pairs, Simulates, ThreadAgrees};
ghost use Rattle.runs.specs.System.{reach, Stuck, System};
ghost use Rattle.runs.specs.Waiting.{AllWait, For, HasCycles, LeastCycle};

/// Refinements compose, a larger bound serves too, and a system that is never stuck refines itself.
pub fn composition<E, P, A, B, C>()
    ensures composes { (low : System E P A) (mid : System E P B) (up : System E P C) (b c : ℕ)
        → 1 ≤ b → 1 ≤ c → Refines low mid b → Refines mid up c → Refines low up (2 * b * c) }
    // with a bound that needs no premise
    ensures always { (low : System E P A) (mid : System E P B) (up : System E P C) (b c : ℕ)
        → Refines low mid b → Refines mid up c → Refines low up (b * c + b + c) }
    ensures more { (low : System E P A) (up : System E P B) (b c : ℕ) → b ≤ c → Refines low up b → Refines low up c }
    ensures itself { (s : System E P A)
        → ((turns : List Turn) (t : ℕ) → s.next (reach s turns).state t ≢ Stuck) → Refines s s 1 }
{}

/// Without `1 ≤ b` refinements don't compose with the bound `2 * b * c`.
pub fn bound_is_needed()
    ensures { ((low mid up : System (Unit {0}) (Unit {0}) Bool) (b c : ℕ)
        → Refines low mid b → Refines mid up c → Refines low up (2 * b * c)) → ⊥ }
{}

/// A simulation by single steps gives a refinement. A thread that a step begins may make moves at once.
pub fn simulation<E, P, A, B, W>()
    ensures refines { (low : System E P A) (up : System E P B) (pairs : Pairs A B W) (there : A → ℕ → Bool) (c : ℕ)
        → Simulates low up pairs there c → Refines low up (c + 1) }
    // each state that the lower system comes to is that of a pair
    ensures pairs { (low : System E P A) (up : System E P B) (pairs : Pairs A B W) (there : A → ℕ → Bool) (c : ℕ)
        → Simulates low up pairs there c → (turns : List Turn)
        → (w : W) × AreReached low up pairs w × ((reach low turns).state ≡ pairs.low w) }
{}

/// One obligation a thread gives a simulation, and so a refinement.
pub fn matching<E, P, A, B, W>()
    ensures simulates { (low : System E P A) (up : System E P B) (pairs : Pairs A B W) (there : A → ℕ → Bool) (c : ℕ)
        → Matches low up pairs there c → Simulates low up pairs there c }
    ensures refines { (low : System E P A) (up : System E P B) (pairs : Pairs A B W) (there : A → ℕ → Bool) (c : ℕ)
        → Matches low up pairs there c → Refines low up (c + 1) }
{}

/// So do threads that are related by themselves, and what they share.
pub fn matching_by_parts<E, P, A, B, X, Y, G, H>()
    ensures { (low : System E P A) (up : System E P B) (parts : Parts A B X Y G H) (there : A → ℕ → Bool) (c : ℕ)
        → MatchesByParts low up parts there c → Refines low up (c + 1) }
{}

/// Where threads share a heap, and a thread between two main positions is related by the one that its own quiet
/// moves lead to, one obligation a thread at main positions is enough.
pub fn quiet_moves<E, P, H, T, B, W>()
    ensures { (m : SharedHeap E P H T) (up : System E P B) (pairs : Pairs (HeapState H T) B W) (q c : ℕ)
        → MatchesQuietly m up pairs q c → Refines (system_of m) up (q + c + 1) }
{}

/// A thread waits for another one always, where threads share a heap: so a cycle of waiting threads has two or more.
pub fn waits_for_others<E, P, H, T>()
    ensures { (m : SharedHeap E P H T) (s : HeapState H T) (t u : ℕ) (place : P) → For (system_of m) s t u place → u ≢ t }
{}

/// What shows that states agree, and what follows from it.
pub fn agreement<E, P, A, B>()
    // the shorter form
    ensures plainly { (low : System E P A) (up : System E P B) (x : A) (y : B) → AgreePlainly low up x y → Agree low up x y }
    ensures by_thread { (low : System E P A) (up : System E P B) (x : A) (y : B)
        → low.trace x ≡ up.trace y → low.threads x ≡ up.threads y
        → ((t : ℕ) → ThreadAgrees low up x y t (low.next x t)) → Agree low up x y }
    ensures all_wait { (low : System E P A) (up : System E P B) (x : A) (y : B)
        → Agree low up x y → AllWait low x → AllWait up y }
    // what is reported below is the cycle above
    ensures least_cycle { (low : System E P A) (up : System E P B) (x : A) (y : B)
        → Agree low up x y → AllWait low x → (ts : List ℕ) → LeastCycle low x ts → LeastCycle up y ts }
{}

/// What refines a system with the law of cycles implements it.
pub fn implementation<E, P, A, B>()
    ensures { (low : System E P A) (up : System E P B) (b : ℕ)
        → b ≤ 2 ^ 56 → Refines low up b → HasCycles up → Implements low up }
{}
