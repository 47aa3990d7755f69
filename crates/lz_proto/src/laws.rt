//! What holds of every step.

ghost use Rattle.std.specs.Prelude.{◌≡◌, ◌<◌, ◌≤◌, ◌+◌, ◌*◌, ◌⊎◌, ◌∷◌, ℕ, List, true, Option, length};
ghost use Rattle.std.specs.List.{All};
ghost use Rattle.lz_proto.specs.declared.act.Act.{Act};
ghost use Rattle.lz_proto.specs.declared.act.Act.TheVariants.{Read, Go};
ghost use Rattle.lz_proto.specs.declared.pos.Pos.TheVariants as pos;
ghost use Rattle.lz_proto.specs.Protocol.{Protocol, position, is_open};
ghost use Rattle.lz_proto.specs.Steps.{Moves, Waits, Refuses, acted, goes};
ghost use Rattle.lz_proto.specs.Once.{Follows, abstract_of};
ghost use Rattle.lz_proto.specs.Kept.{IsKept};
ghost use Rattle.lz_proto.specs.Causes.{WaitsWell, IsBarred, IsOwn, IsWrong, IsFull, CanGo};
ghost use Rattle.lz_proto.specs.Promises.{IsOneRead, IsNew, ran, steps, changes, returned};
ghost use Rattle.lz_proto.specs.declared.once.Once.TheVariants as once;

/// A new state keeps what every state keeps.
pub fn beginning()
    ensures { (n : ℕ) (threads : List ℕ) (p : Protocol) → IsNew n threads p → IsKept p }
{}

/// Each step keeps what every state keeps, and is one by the rules of cells that are written once.
pub fn steps()
    ensures kept { (p q : Protocol) → IsKept p → (who : ℕ) → who < length p.at → (act : Act) → acted p who act ≡ Moves q → IsKept q }
    ensures rules { (p q : Protocol) → IsKept p → (who : ℕ) → who < length p.at → (act : Act) → acted p who act ≡ Moves q → Follows p who act q }
{}

/// An act is refused exactly where the accessor can't do it, or there is no room for the latch that it would make.
pub fn refusals()
    ensures only { (p : Protocol) → IsKept p → (who : ℕ) → (act : Act) → acted p who act ≡ Refuses → IsWrong p who act ⊎ IsFull p who act }
    ensures all { (p : Protocol) → (who : ℕ) → (act : Act) → IsWrong p who act ⊎ IsFull p who act → acted p who act ≡ Refuses }
{}

/// LazyCycle is thrown exactly where an accessor that reads a cell finds that its own thread runs the initialiser.
pub fn cycles()
    ensures only { (p q : Protocol) → IsKept p → (who : ℕ) → who < length p.at → (act : Act) → acted p who act ≡ Moves q → position q who ≡ pos.Cycle → (c : ℕ) × (position p who ≡ pos.Look c) × IsOwn p who c }
    ensures all { (p : Protocol) → IsKept p → (who c : ℕ) → position p who ≡ pos.Look c → IsOwn p who c → acted p who Go ≡ goes p who pos.Cycle }
{}

/// No waiter is lost: an accessor waits exactly where it stands at a closed latch, and somebody is to open that.
pub fn waiting()
    ensures only { (p : Protocol) → IsKept p → (who : ℕ) → (act : Act) → acted p who act ≡ Waits → WaitsWell p who }
    ensures all { (p : Protocol) → (who : ℕ) → (act : Act) → IsBarred p who act → acted p who act ≡ Waits }
{}

/// Whom a waiter awaits can go on, where it isn't in its initialiser; it opens the latch, which stays open, and lets the waiter go.
pub fn freeing()
    ensures runs { (p : Protocol) → IsKept p → (u c : ℕ) → abstract_of p c ≡ once.Running u → (position p u ≡ pos.Body c) ⊎ CanGo p u }
    ensures opens { (p : Protocol) → (u latch : ℕ) (r : Option ℕ) → position p u ≡ pos.Open latch r → CanGo p u }
    ensures opened { (p q : Protocol) → (u latch : ℕ) (r : Option ℕ) → position p u ≡ pos.Open latch r → acted p u Go ≡ Moves q → is_open q latch ≡ true }
    ensures stays { (p q : Protocol) → (who : ℕ) (act : Act) → acted p who act ≡ Moves q → (latch : ℕ) → latch < length p.opened → is_open p latch ≡ true → is_open q latch ≡ true }
    ensures wakes { (p : Protocol) → (who c latch : ℕ) → position p who ≡ pos.Sleep c latch → is_open p latch ≡ true → CanGo p who }
{}

/// A cell is written once: in any list of acts its initialiser returns a value at most once, and the value stays.
pub fn written()
    ensures once { (c : ℕ) (acts : List (ℕ × Act)) (p : Protocol) → IsKept p → All (λ a. a.0 < length p.at) acts → returned c p acts ≤ 1 }
    ensures stays { (c v : ℕ) (acts : List (ℕ × Act)) (p : Protocol) → IsKept p → All (λ a. a.0 < length p.at) acts → abstract_of p c ≡ once.Done v → abstract_of (ran p acts) c ≡ once.Done v }
{}

/// From the act that enters it to its end, in any list of acts: an accessor makes at most `16 * (2 + n)` steps, where the cell
/// changes n times; and a value that it got is the cell's.
pub fn reads()
    ensures pace { (who c : ℕ) (acts : List (ℕ × Act)) (p q : Protocol) → IsKept p → who < length p.at → acted p who (Read c) ≡ Moves q → IsOneRead (length p.at) who acts → steps who p ((who, Read c) ∷ acts) ≤ 16 * (2 + changes c p ((who, Read c) ∷ acts)) }
    ensures value { (who c : ℕ) (acts : List (ℕ × Act)) (p q : Protocol) → IsKept p → who < length p.at → acted p who (Read c) ≡ Moves q → IsOneRead (length p.at) who acts → (v : ℕ) → position (ran q acts) who ≡ pos.Got v → abstract_of (ran q acts) c ≡ once.Done v }
{}
