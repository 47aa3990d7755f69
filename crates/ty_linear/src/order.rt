//! An order in which each class stands behind its parents: a class is put into it once none of its parents is waited
//! for. The counts of those change once for each parent that is written.

ghost use Rattle.std.specs.Prelude.{◌≡◌, ◌++◌, ◌+◌, ◌≤◌, ◌<◌, ◌^◌, ◌==◌, nat_eq, if◌then◌else◌, ℕ, List, [], length, map, slice_index, slice_index_or, IfOk, OnOk};
ghost use Rattle.std.specs.List.{All, IsDistinct};
ghost use Rattle.ty_linear.specs.Linear.{rows, parents_of, AreClasses};
ghost use Rattle.ty_linear.specs.Order.{IsOrder, IsReady, AreLeft, count_of};

use crate::table::empty_rows;
use std::alloc::{AllocError, Global};

// An order of the classes; where some are left out, each of these has a parent that is left out too.
pub(crate) fn order_of(alloc: Global, parents: &[Vec<u32>]) -> Result<Vec<u32>, AllocError>
    requires classes { AreClasses parents.now }
    requires few { length parents.now < 2 ^ 32 }
    ensures order { IfOk result (λ order. IsOrder (rows parents.now) order.items) }
    ensures distinct { IfOk result (λ order. IsDistinct nat_eq order.items) }
    ensures left { IfOk result (λ order. AreLeft (rows parents.now) order.items) }
{
    let children = children_of(alloc, parents)?;
    let mut waiting = counts(alloc, parents)?;
    let mut order = orphans(alloc, &waiting)?;
    let mut number = 0;
    while number < order.len() {
        let class = order[number] as usize;
        release(&children[class], &mut waiting, &mut order)?;
        number += 1;
    }
    Ok(order)
}

// Each class's children, as often as it is written as their parent.
fn children_of(alloc: Global, parents: &[Vec<u32>]) -> Result<Vec<Vec<u32>>, AllocError>
    requires classes { AreClasses parents.now }
    requires few { length parents.now < 2 ^ 32 }
    ensures count { IfOk result (λ children. length children.items ≡ length parents.now) }
    ensures each { IfOk result (λ children. (parent child : ℕ) →
        count_of (slice_index_or (rows children.items) parent []) child ≡ count_of (parents_of (rows parents.now) child) parent) }
{
    let mut children = empty_rows(alloc, parents.len())?;
    for (child, row) in parents.iter().enumerate() {
        add_child(&mut children, child as u32, row)?;
    }
    Ok(children)
}

// Puts a class behind the children of each of its parents.
fn add_child(children: &mut [Vec<u32>], child: u32, parents: &[u32]) -> Result<(), AllocError>
    requires { All (λ parent. parent < length children.old) parents.now }
    ensures { OnOk result ((parent class : ℕ) →
        count_of (slice_index_or (rows children.new) parent []) class
        ≡ count_of (slice_index_or (rows children.old) parent []) class + (if class == child then count_of parents.now parent else 0)) }
{
    for parent in parents {
        children[*parent as usize].push(child)?;
    }
    Ok(())
}

// How many parents each class has.
fn counts(alloc: Global, parents: &[Vec<u32>]) -> Result<Vec<usize>, AllocError>
    ensures { IfOk result (λ counts. counts.items ≡ map (λ row. length row.items) parents.now) }
{
    parents.iter().map(|row| row.len()).collect(alloc)
}

// The classes that wait for no parent.
fn orphans(alloc: Global, waiting: &[usize]) -> Result<Vec<u32>, AllocError>
    requires { length waiting.now < 2 ^ 32 }
    ensures { IfOk result (λ ready. IsReady waiting.now ready.items) }
{
    let mut ready = Vec::new(alloc);
    for (class, count) in waiting.iter().enumerate() {
        if *count == 0 {
            ready.push(class as u32)?;
        }
    }
    Ok(ready)
}

// Takes one from the count of each of the classes, as often as it is written, and puts those at 0 behind the others.
fn release(classes: &[u32], waiting: &mut [usize], ready: &mut Vec<u32>) -> Result<(), AllocError>
    requires within { All (λ class. class < length waiting.old) classes.now }
    requires enough { (class : ℕ) → class < length waiting.old → count_of classes.now class ≤ slice_index waiting.old class }
    requires ready { IsReady waiting.old ready.old.items }
    ensures fewer { OnOk result ((class : ℕ) → class < length waiting.old →
        slice_index waiting.new class + count_of classes.now class ≡ slice_index waiting.old class) }
    ensures ready { OnOk result (IsReady waiting.new ready.new.items) }
    ensures behind { OnOk result ((more : List ℕ) × (ready.new.items ≡ ready.old.items ++ more)) }
{
    for class in classes {
        let at = *class as usize;
        waiting[at] -= 1;
        if waiting[at] == 0 {
            ready.push(*class)?;
        }
    }
    Ok(())
}
