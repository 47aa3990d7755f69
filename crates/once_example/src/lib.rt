//! Examples of the theory of runs: a cell that is written once, read by any number of threads, lowered from
//! atomic moves to exchanges and latches, and a thread that waits as soon as it begins. They show what a pass
//! supplies, and that wrong lowerings are refused.
#![tactic(auto)]

ghost use Rattle.once_example.specs.Beginner.{low_next, up_next, with_next};
ghost use Rattle.once_example.specs.Lower.{lower};
ghost use Rattle.once_example.specs.Upper.{upper};
ghost use Rattle.once_example.specs.Waiters.{NoLostWaiter};
ghost use Rattle.once_example.specs.Wrong.{with_step, no_exchange, spins, stays_evaluating};
ghost use Rattle.runs.specs.declared.turn.Turn.{Turn};
ghost use Rattle.runs.specs.Refines.{Implements, Refines};
ghost use Rattle.runs.specs.Simulates.{AreReached, Pairs, Simulates};
ghost use Rattle.runs.specs.System.{Goes, reach};
ghost use Rattle.std.specs.Prelude.{Bool, List, ℕ, ◌≡◌};

/// The exchanges and latches refine the atomic cell, and no waiter is lost, for each number of threads and of
/// reads, and whatever the initialiser gives to each thread: a value, or 0 for a failure.
pub fn exchanges_refine()
    ensures refines { (ends : ℕ → ℕ) (n reads : ℕ) → Refines (lower ends n reads) (upper ends n reads) 6 }
    ensures implements { (ends : ℕ → ℕ) (n reads : ℕ) → Implements (lower ends n reads) (upper ends n reads) }
    ensures waiters { (ends : ℕ → ℕ) (n reads : ℕ) (turns : List Turn)
        → NoLostWaiter (reach (lower ends n reads) turns).state }
{}

/// A reader that spins instead of waiting, a result that is stored without the exchange, and a failure that
/// leaves Evaluating in the field refine the atomic cell with no bound whatever.
pub fn wrong_ones()
    ensures spinning { (b : ℕ) → Refines (with_step spins (λ t. 1) 2 1) (upper (λ t. 1) 2 1) b → ⊥ }
    ensures unexchanged { (b : ℕ) → Refines (with_step no_exchange (λ t. 1) 2 1) (upper (λ t. 1) 2 1) b → ⊥ }
    ensures stuck_mark { (b : ℕ) → Refines (with_step stays_evaluating (λ t. 0) 1 2) (upper (λ t. 0) 1 2) b → ⊥ }
{}

/// A thread that waits as soon as it begins, and above makes a move before that: a refinement, which a simulation
/// shows only where the thread that a step begins makes moves at once.
pub fn begins_waiting<W>()
    ensures refines { Refines (with_next low_next) (with_next up_next) 2 }
    ensures needed { (pairs : Pairs ℕ ℕ W) (there : ℕ → ℕ → Bool) (c : ℕ)
        → (sim : Simulates (with_next low_next) (with_next up_next) pairs there c)
        → ((w : W) (reached : AreReached (with_next low_next) (with_next up_next) pairs w) (t x : ℕ)
        (goes : low_next (pairs.low w) t ≡ Goes x) → (sim.step w reached t x goes).answer.makes ≡ 0) → ⊥ }
{}
