//! The linearisation of each class of a program (SLS 5.1.2).
#![tactic(auto)]

ghost use Rattle.std.specs.Prelude.{◌≡◌, ◌<◌, length, IfOk, IfErr, OnOk};
ghost use Rattle.std.specs.List.{All};
ghost use Rattle.ty_linear.specs.Fault.{IfCyclic};
ghost use Rattle.ty_linear.specs.Linear.{rows, AreLinearisations, IsAcyclic, IsLeastOnCycle};

mod cycle;
mod fault;
mod gather;
mod laws;
mod lists;
mod order;
mod table;
#[cfg(test)]
mod tests;

use cycle::least_on_cycle;
pub use fault::LinearFault;
pub use laws::linearisations;
use lists::lists_of;
use order::order_of;
use std::alloc::Global;

/// The linearisation of each class (SLS 5.1.2). Row i has the numbers of the parents of class i, as they are written.
/// `Cyclic` exactly where some class is its own ancestor, and then of the least one; `Memory` for more than 2^32 - 1
/// classes.
pub fn linearise(alloc: Global, parents: &[Vec<u32>]) -> Result<Vec<Vec<u32>>, LinearFault>
    requires { All (λ row. All (λ class. class < length parents.now) row.items) parents.now }
    ensures ok { IfOk result (λ lists. AreLinearisations (rows parents.now) (rows lists.items)) }
    ensures acyclic { OnOk result (IsAcyclic (rows parents.now)) }
    ensures cyclic { IfErr result (λ fault. IfCyclic fault (IsLeastOnCycle (rows parents.now))) }
{
    if parents.len() > u32::MAX as usize {
        return Err(LinearFault::Memory);
    }
    let order = order_of(alloc, parents)?;
    if order.len() == parents.len() {
        return Ok(lists_of(alloc, parents, &order)?);
    }
    match least_on_cycle(alloc, parents)? {
        Some(class) => Err(LinearFault::Cyclic { class }),
        None => unreachable!(),
    }
}
