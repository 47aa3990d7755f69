ghost use Rattle.std.specs.Prelude.{◌≡◌, ◌^◌, ◌<◌, ℕ, ℤ, List, map, IfOk};
ghost use Rattle.std.specs.List.{AllByRecursion};
ghost use Rattle.sl_top.specs.Listing.{HasLiterals};
ghost use Rattle.sl_top.specs.declared.chain.Term.{Term};
ghost use Rattle.sl_top.specs.Value.{Value, Values, steps_of};
ghost use Rattle.sl_top.specs.Trace.{printed_line};

use crate::NoMemory;
use crate::chain::Chain;
use crate::compiling::compile;
use crate::machine::{Machine, execute};
use sqlite_items::Items;
use std::alloc::Global;
use ty_prog::Event;

/// What a run of the private machine leaves.
#[derive(Debug, Drop)]
pub struct Traced {
    pub trace: Items<Event>,
    pub steps: u32,
}

/// Compiles the chains and runs their code on the private machine.
pub fn run(alloc: Global, chains: &[Chain]) -> Result<Traced, NoMemory>
    requires literals { AllByRecursion HasLiterals chains.now }
    requires fits { steps_of chains.now < 2 ^ 32 }

    // each chain's value is printed, in order, by thread 1
    ensures printed { IfOk result (λ ran. (values : List ℤ) × Values chains.now values
        × (ran.trace ≡ map printed_line values)) }
    ensures steps { IfOk result (λ ran. ran.steps ≡ steps_of chains.now) }
{
    let code = compile(alloc, chains)?;
    let Machine {
        operands: _,
        trace,
        steps,
    } = execute(alloc, code.as_slice())?;
    Ok(Traced { trace, steps })
}

/// Every chain has one value.
pub fn value_is_one()
    ensures { (n : ℕ) (rest : List Term) → (v : ℤ) × Value n rest v × ((w : ℤ) → Value n rest w → w ≡ v) }
{}
