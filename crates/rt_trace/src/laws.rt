//! Laws of the definitions. The function has an empty body: its contract is the law.

ghost use Rattle.std.specs.Prelude.{◌≡◌, ℕ, List};
ghost use Rattle.runs.specs.declared.turn.Turn.{Turn};
ghost use Rattle.rt_trace.specs.Turns.{AreTurns, IsFirstWrong};

/// Bytes are the text of one list of turns at most, and then no line is wrong.
pub fn turns()
    ensures one { (bytes : List ℕ) (turns others : List Turn) → AreTurns bytes turns → AreTurns bytes others → turns ≡ others }
    ensures right { (bytes : List ℕ) (line : ℕ) (turns : List Turn) → IsFirstWrong bytes line → ¬ (AreTurns bytes turns) }
{}
