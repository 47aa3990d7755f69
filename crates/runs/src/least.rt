//! The least thread that leads to itself.

ghost use Rattle.std.specs.Prelude.{◌≡◌, ◌+◌, ◌<◌, length, replicate, IfOk, MatchOption};
ghost use Rattle.runs.specs.Walks.{IsCircuit, IsLeastFrom, IsLeastOfAll, IsLesser, NoneReturns};

use crate::NoMemory;
use crate::walk::{Circuit, awaited_by, meet};
use std::alloc::Global;

/// The same circuit from its least thread on.
fn from_least(table: &[Option<u32>], circuit: Circuit) -> Circuit
    requires { IsCircuit table.now circuit }
    ensures circuit { IsCircuit table.now result }
    ensures least { IsLeastFrom table.now circuit.thread result.thread }
{
    let mut thread = circuit.thread;
    let mut least = circuit.thread;
    for _step in 0..circuit.length {
        if thread < least {
            least = thread;
        }
        if let Some(next) = awaited_by(table, thread as usize) {
            thread = next;
        }
    }
    Circuit {
        thread: least,
        length: circuit.length,
    }
}

/// Meets all threads, none of which is marked yet, for the circuit from the least thread that leads to itself.
fn search(table: &[Option<u32>], marks: &mut [usize]) -> Option<Circuit>
    requires { marks.old ≡ replicate (length table.now + 1) 0 }
    ensures { MatchOption result (NoneReturns table.now)
        (λ circuit. IsCircuit table.now circuit × IsLeastOfAll table.now circuit.thread) }
{
    let mut met = 0;
    let mut least: Option<Circuit> = None;
    for start in 0..marks.len() {
        if marks[start] > 0 {
            continue;
        }
        let walk = meet(table, marks, met, start);
        met = walk.met;
        if let Some(circuit) = walk.circuit {
            least = Some(lesser(least, from_least(table, circuit)));
        }
    }
    least
}

/// The circuit from the least thread that leads to itself, if one does.
pub fn least_circuit(alloc: Global, table: &[Option<u32>]) -> Result<Option<Circuit>, NoMemory>
    ensures { IfOk result (λ found. MatchOption found (NoneReturns table.now)
        (λ circuit. IsCircuit table.now circuit × IsLeastOfAll table.now circuit.thread)) }
{
    let mut marks = vec![in alloc; 0usize; table.len() + 1]?;
    Ok(search(table, &mut marks))
}

/// The circuit whose thread is less.
fn lesser(one: Option<Circuit>, other: Circuit) -> Circuit
    ensures { IsLesser one other result }
{
    match one {
        Some(circuit) if circuit.thread < other.thread => circuit,
        _ => other,
    }
}
