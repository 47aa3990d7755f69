//! Where threads stand, as laws.

ghost use Rattle.std.specs.Prelude.{◌≡◌, ℕ, List, Some};
ghost use Rattle.runs.specs.declared.turn.Turn.{Turn};
ghost use Rattle.runs.specs.System.{reach};
ghost use Rattle.ty_prog.specs.declared.program.Program.{Program};
ghost use Rattle.ty_prog.specs.Node.{tree_at};
ghost use Rattle.ty_prog.specs.Tree.{Tree};
ghost use Rattle.sm_state.specs.declared.heap.Heap.{Heap};
ghost use Rattle.sm_state.specs.declared.thread.Context.{Context};
ghost use Rattle.sm_state.specs.declared.thread.Level.{Level};
ghost use Rattle.sm_state.specs.declared.thread.Thread.{Thread};
ghost use Rattle.sm_rule.specs.Step.{step};
ghost use Rattle.sm_rule.specs.Machine.{meaning};
ghost use Rattle.sm_placed.specs.Nodes.{InClass};
ghost use Rattle.sm_placed.specs.Placed.{StandsBelow, place_of, Placed, ThreadPlaced, AfterPlaced};

/// Each context of each thread stands at a node of its part, with as many operands as the nodes above it keep: each step
/// leaves its thread so, and begins another so, and in every state that a run comes to all threads stand so. That holds
/// of every program.
pub fn standing()
    ensures steps { (p : Program) (t : ℕ) (heap : Heap) (thread : Thread)
        → ThreadPlaced p thread → AfterPlaced p (step p t heap thread) }
    ensures reached { (p : Program) (turns : List Turn) (t : ℕ)
        → ThreadPlaced p ((reach (meaning p) turns).state.threads t) }
    // levels tell the place of the node in the tree of the part
    ensures places { (root node : Tree) (levels : List Level)
        → StandsBelow root node levels → tree_at root (place_of levels) ≡ Some node }
    // what holds of all nodes of a program holds of those of a context
    ensures nodes { (p : Program) (c : Context) → Placed p c → InClass p c }
{}
