//! The cycle of waiting threads that is reported.

ghost use Rattle.std.specs.Prelude.{◌≡◌, ℕ, List, Option, IfOk, MatchOption};
ghost use Rattle.runs.specs.WaitTable.{IsCycleFrom, IsReported, NoCycle};
ghost use Rattle.runs.specs.Walks.{IsCircuit};

use crate::NoMemory;
use crate::least::least_circuit;
use crate::walk::{Circuit, awaited_by};
use sqlite_items::Items;
use std::alloc::Global;

/// The threads of a circuit, up to where it first comes back.
fn threads_of(
    alloc: Global,
    table: &[Option<u32>],
    circuit: Circuit,
) -> Result<Items<u32>, NoMemory>
    requires { IsCircuit table.now circuit }
    ensures { IfOk result (λ threads. IsCycleFrom table.now circuit.thread threads) }
{
    let mut threads = Items::new(alloc);
    threads.push(circuit.thread)?;
    let mut thread = circuit.thread;
    for _step in 0..circuit.length {
        let Some(next) = awaited_by(table, thread as usize) else {
            return Ok(threads);
        };
        if next == circuit.thread {
            return Ok(threads);
        }
        threads.push(next)?;
        thread = next;
    }
    Ok(threads)
}

/// The cycle of waiting threads that holds the least thread of any, from that thread on. Entry `t - 1` of the
/// table tells whom thread t waits for, if any; who isn't in the table waits for nobody.
pub fn reported_cycle(alloc: Global, waits: &[Option<u32>]) -> Result<Option<Items<u32>>, NoMemory>
    ensures { IfOk result (λ found. MatchOption found (NoCycle waits.now) (λ threads. IsReported waits.now threads)) }
{
    match least_circuit(alloc, waits)? {
        Some(circuit) => Ok(Some(threads_of(alloc, waits, circuit)?)),
        None => Ok(None),
    }
}

/// A table has at most one cycle to report.
pub fn one_reported()
    ensures { (waits : List (Option ℕ)) (one other : List ℕ)
        → IsReported waits one → IsReported waits other → one ≡ other }
{}
