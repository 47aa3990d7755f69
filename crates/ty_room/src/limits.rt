//! That programs within the limits have room, what members bring, and that lowered programs keep room, as laws.

ghost use Rattle.std.specs.Prelude.{IsTrue, ℕ, ◌≤◌, ◌-◌, ◌+◌, ◌≡◌, ◌∷◌, List, length};
ghost use Rattle.std.specs.List.{All, AllZip};
ghost use Rattle.ty_prog.specs.declared.class.Class.{Class};
ghost use Rattle.ty_prog.specs.declared.cell.Cell.{Cell};
ghost use Rattle.ty_prog.specs.declared.method.Method.{Method};
ghost use Rattle.ty_prog.specs.declared.expr.Expr.{Expr};
ghost use Rattle.ty_prog.specs.declared.program.Program.{Program};
ghost use Rattle.ty_room.specs.Ahead.{ahead_of};
ghost use Rattle.ty_room.specs.Sizing.{expr_size};
ghost use Rattle.ty_room.specs.NoMore.{NoMore};
ghost use Rattle.ty_room.specs.Room.{Room, CellHasRoom, MethodHasRoom, class_size, body_weight, constructor_weight, class_entries};
ghost use Rattle.ty_room.specs.Kept.{statements, EachNoMore, ConstructorKept, CellKept, MethodKept, ClassKept, in_trees, brought};
ghost use Rattle.ty_room.specs.Limits.{WithinLimits};
ghost use Rattle.ty_room.specs.Members.{members_fit, gains_fit};
ghost use Rattle.ty_room.specs.AtLimits.{limits_fit};

/// A program that keeps the limits has room.
pub fn source_room()
    ensures { (p : Program) → WithinLimits p → Room 0 p }
{}

/// Each sort of member brings at most 5 entries for each unit that it counts in the size of its class; what a lowering adds
/// to a class for a member was counted for it before.
pub fn members()
    ensures few { IsTrue members_fit }
    ensures counted { IsTrue gains_fit }
{}

/// Bodies and classes at the limits have room.
pub fn at_limits()
    ensures { IsTrue limits_fit }
{}

/// A lowered program has room where the program had, if each of its classes keeps to what the class took: its bodies, its
/// constructor with the statements that it gains, its pool.
pub fn keeping_room()
    ensures bodies { (j k given locals given' locals' : ℕ) (low high : Expr)
        → NoMore (expr_size (ahead_of j) low) (expr_size (ahead_of k) high) → locals - given ≤ locals' - given'
        → body_weight (ahead_of j) given locals low ≤ body_weight (ahead_of k) given' locals' high }
    ensures statements { (j k : ℕ) (lows highs : List Expr) → EachNoMore j k lows highs → statements j lows ≤ statements k highs }
    ensures one_statement_more { (j : ℕ) (first : Expr) (rest : List Expr)
        → statements j (first ∷ rest) ≡ (expr_size (ahead_of j) first).value + 1 + statements j rest }
    ensures constructors { (j k gained : ℕ) (low high : Class) → ConstructorKept j k gained low high
        → constructor_weight (ahead_of j) low ≤ constructor_weight (ahead_of k) high }
    ensures pools { (j k : ℕ) (lows highs : List Class) (low high : Class) → length lows ≤ length highs
        → brought j lows low ≤ brought k highs high
        → class_entries (ahead_of j) lows low ≤ class_entries (ahead_of k) highs high }
    ensures programs { (j k : ℕ) (low high : Program)
        → AllZip (ClassKept j k low.classes high.classes) low.classes high.classes → Room k high → Room j low }
{}

/// The lazy members and the methods of a lowered class have room where those of the class had, if each keeps to one. What a
/// class's trees bring to its pool, and the calls by `super` in them, are sums over its trees, so that a pass counts tree by
/// tree what it leaves.
pub fn keeping_members()
    ensures cells { (j k : ℕ) (lows highs : List Cell) → AllZip (CellKept j k) lows highs → All (CellHasRoom (ahead_of k)) highs
        → All (CellHasRoom (ahead_of j)) lows }
    ensures methods { (j k : ℕ) (lows highs : List Method) → AllZip (MethodKept j k) lows highs
        → All (MethodHasRoom (ahead_of k)) highs → All (MethodHasRoom (ahead_of j)) lows }
    ensures entries { (k : ℕ) (class : Class) → (class_size (ahead_of k) class).entries ≡ in_trees (λ size. size.entries) k class }
    ensures supers { (k : ℕ) (class : Class) → (class_size (ahead_of k) class).supers ≡ in_trees (λ size. size.supers) k class }
{}
