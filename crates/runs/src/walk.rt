//! A walk from a thread to those that it waits for.

ghost use Rattle.std.specs.Prelude.{◌≡◌, ℕ, ◌<◌, length, slice_index};
ghost use Rattle.runs.specs.WaitTable.{awaited_by};
ghost use Rattle.runs.specs.Walks.{IsCircuitOf, Marked};

/// A thread that leads to itself by so many waits.
#[derive(Clone, Copy)]
pub struct Circuit {
    pub thread: u32,
    pub length: usize,
}

/// How many threads were met, and the circuit to which the walk led.
#[derive(Clone, Copy)]
pub struct Walk {
    pub met: usize,
    pub circuit: Option<Circuit>,
}

/// Whom a thread waits for.
pub fn awaited_by(table: &[Option<u32>], thread: usize) -> Option<u32>
    ensures { result ≡ awaited_by table.now thread }
{
    if thread == 0 {
        return None;
    }
    match table.get(thread - 1) {
        Some(entry) => *entry,
        None => None,
    }
}

/// Meets a thread that wasn't met and those to which it leads, until it comes to one that was.
pub fn meet(table: &[Option<u32>], marks: &mut [usize], before: usize, start: usize) -> Walk
    requires marked { Marked table.now marks.old before }
    requires start { start < length marks.old }
    requires fresh { slice_index marks.old start ≡ 0 }
    ensures marked { Marked table.now marks.new result.met }
    ensures start { 0 < slice_index marks.new start }
    ensures kept { (t : ℕ) → 0 < slice_index marks.old t → 0 < slice_index marks.new t }
    ensures circuit { IsCircuitOf table.now marks.old marks.new result.circuit }
{
    let mut met = before;
    let mut thread = start;
    'steps: loop {
        met += 1;
        marks[thread] = met;
        let Some(next) = awaited_by(table, thread) else {
            return Walk { met, circuit: None };
        };
        thread = next as usize;
        if thread >= marks.len() {
            return Walk { met, circuit: None };
        }
        let mark = marks[thread];
        if mark > before {
            let circuit = Circuit {
                thread: next,
                length: met - mark + 1,
            };
            return Walk {
                met,
                circuit: Some(circuit),
            };
        }
        if mark > 0 {
            return Walk { met, circuit: None };
        }
    }
}
