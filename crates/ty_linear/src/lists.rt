//! The linearisations, each made from those of its class's parents.

ghost use Rattle.std.specs.Prelude.{◌≡◌, ◌≤◌, ◌<◌, ◌^◌, [], length, slice_index_or, IfOk, OnOk};
ghost use Rattle.std.specs.List.{All};
ghost use Rattle.ty_linear.specs.Linear.{rows, parents_of, AreClasses, IsLinearisation};
ghost use Rattle.ty_linear.specs.Order.{IsOrder};

use crate::gather::gather;
use crate::table::empty_rows;
use std::alloc::{AllocError, Global};

// The linearisation of each class of the order; the lists of other classes are empty.
pub(crate) fn lists_of(
    alloc: Global,
    parents: &[Vec<u32>],
    order: &[u32],
) -> Result<Vec<Vec<u32>>, AllocError>
    requires classes { AreClasses parents.now }
    requires order { IsOrder (rows parents.now) order.now }
    requires few { length order.now < 2 ^ 32 }
    ensures count { IfOk result (λ lists. length lists.items ≡ length parents.now) }
    ensures each { IfOk result (λ lists. All (λ class.
        IsLinearisation (rows parents.now) class (slice_index_or (rows lists.items) class [])) order.now) }
{
    let mut marks = vec![in alloc; 0u32; parents.len()]?;
    let mut lists = empty_rows(alloc, parents.len())?;
    for (number, class) in order.iter().enumerate() {
        let stamp = number as u32 + 1;
        let list = linearisation(alloc, parents, *class, &lists, &mut marks, stamp)?;
        lists[*class as usize] = list;
    }
    Ok(lists)
}

// The linearisation of a class whose parents' lists are theirs. All marks are below the stamp.
fn linearisation(
    alloc: Global,
    parents: &[Vec<u32>],
    class: u32,
    lists: &[Vec<u32>],
    marks: &mut [u32],
    stamp: u32,
) -> Result<Vec<u32>, AllocError>
    requires classes { AreClasses parents.now }
    requires class { class < length parents.now }
    requires lists { length lists.now ≡ length parents.now }
    requires marks { length marks.old ≡ length parents.now }
    requires above { All (λ parent. IsLinearisation (rows parents.now) parent (slice_index_or (rows lists.now) parent []))
        (parents_of (rows parents.now) class) }
    requires fresh { All (λ mark. mark < stamp) marks.old }
    ensures list { IfOk result (λ list. IsLinearisation (rows parents.now) class list.items) }
    ensures below { OnOk result (All (λ mark. mark ≤ stamp) marks.new) }
{
    let mut merged = Vec::new(alloc);
    for parent in &parents[class as usize] {
        gather(&mut merged, marks, stamp, &lists[*parent as usize])?;
    }
    merged.push(class)?;
    merged.reverse();
    Ok(merged)
}
