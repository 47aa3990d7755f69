//! Who runs the initialisers of cells, as laws.

ghost use Rattle.std.specs.Prelude.{ℕ, List};
ghost use Rattle.runs.specs.declared.turn.Turn.{Turn};
ghost use Rattle.runs.specs.System.{reach};
ghost use Rattle.ty_prog.specs.declared.program.Program.{Program};
ghost use Rattle.sm_rule.specs.Machine.{meaning};
ghost use Rattle.sm_cells.specs.Running.{CellsRun};

/// In every state that a run comes to, each thread that a cell names as running its initialiser has a context of this
/// initialiser, on the cell's object (SIP-20). That holds of every program.
pub fn running()
    ensures { (p : Program) (turns : List Turn) → CellsRun p (reach (meaning p) turns).state }
{}
