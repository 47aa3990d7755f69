//! The least class that is its own ancestor. Each class is tried in turn, by a search of its own through all of its
//! ancestors: that is slow, and comes only where there is such a class.

ghost use Rattle.std.specs.Prelude.{◌≡◌, ◌≤◌, ◌<◌, ◌+◌, ◌^◌, ◌↔◌, IsTrue, length, IfOk, OnOk, MatchOption};
ghost use Rattle.std.specs.List.{All};
ghost use Rattle.ty_linear.specs.Linear.{rows, AreClasses, IsAncestor, IsAcyclic, IsLeastOnCycle};

use crate::gather::gather;
use std::alloc::{AllocError, Global};

// The least class that is its own ancestor, if there is one.
pub(crate) fn least_on_cycle(alloc: Global, parents: &[Vec<u32>]) -> Result<Option<u32>, AllocError>
    requires classes { AreClasses parents.now }
    requires few { length parents.now < 2 ^ 32 }
    ensures { IfOk result (λ least.
        MatchOption least (IsAcyclic (rows parents.now)) (IsLeastOnCycle (rows parents.now))) }
{
    let mut marks = vec![in alloc; 0u32; parents.len()]?;
    for class in 0..parents.len() as u32 {
        if is_on_cycle(alloc, parents, class, &mut marks)? {
            return Ok(Some(class));
        }
    }
    Ok(None)
}

// Whether a class is its own ancestor. No mark is above it.
fn is_on_cycle(
    alloc: Global,
    parents: &[Vec<u32>],
    class: u32,
    marks: &mut [u32],
) -> Result<bool, AllocError>
    requires classes { AreClasses parents.now }
    requires few { length parents.now < 2 ^ 32 }
    requires class { class < length parents.now }
    requires marks { length marks.old ≡ length parents.now }
    requires fresh { All (λ mark. mark ≤ class) marks.old }
    ensures answer { IfOk result (λ answer. IsTrue answer ↔ IsAncestor (rows parents.now) class class) }
    ensures below { OnOk result (All (λ mark. mark ≤ class + 1) marks.new) }
{
    let stamp = class + 1;
    let mut found = Vec::new(alloc);
    gather(&mut found, marks, stamp, &parents[class as usize])?;
    let mut number = 0;
    while number < found.len() {
        let ancestor = found[number] as usize;
        gather(&mut found, marks, stamp, &parents[ancestor])?;
        number += 1;
    }
    Ok(marks[class as usize] == stamp)
}
