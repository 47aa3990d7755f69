ghost use Rattle.std.specs.Prelude.{IsTrue};
ghost use Rattle.ty_linear.specs.Linear.{AreClasses};

use std::alloc::{AllocError, Global};
use ty_linear::linearise;

// The parents of a class in a shape: `chain`, `fans`, and for every other word diamonds.
fn parents_of(alloc: Global, shape: &str, class: u32) -> Result<Vec<u32>, AllocError> {
    let mut parents = Vec::new(alloc);
    match shape {
        // each class has the one before it
        "chain" => {
            if class > 0 {
                parents.push(class - 1)?;
            }
        }
        // every 64th class has all those since the last such class, which have it
        "fans" => {
            let last = class - class % 64;
            if class % 64 > 0 {
                parents.push(last)?;
            } else {
                for other in last.saturating_sub(63)..last {
                    parents.push(other)?;
                }
            }
        }
        // pairs of classes, each with both of the pair before
        _ => {
            let pair = class - class % 2;
            if pair > 1 {
                parents.push(pair - 2)?;
                parents.push(pair - 1)?;
            }
        }
    }
    Ok(parents)
}

// Whether each parent is a class.
fn are_classes(parents: &[Vec<u32>]) -> bool
    ensures { IsTrue result → AreClasses parents.now }
{
    let count = parents.len();
    parents
        .iter()
        .all(|row| row.iter().all(|class| (*class as usize) < count))
}

/// The length of all linearisations of this many classes in a shape, found so often; 0 where they have none.
pub fn linearised(alloc: Global, shape: &str, count: u32, times: u32) -> Result<u64, AllocError> {
    let mut parents = Vec::new(alloc);
    for class in 0..count {
        parents.push(parents_of(alloc, shape, class)?)?;
    }
    let mut length = 0;
    for _ in 0..times {
        length = total(alloc, parents.as_slice());
    }
    Ok(length)
}

fn total(alloc: Global, parents: &[Vec<u32>]) -> u64 {
    if !are_classes(parents) {
        return 0;
    }
    let mut length = 0u64;
    if let Ok(lists) = linearise(alloc, parents) {
        for list in lists.as_slice() {
            length = length.saturating_add(list.len() as u64);
        }
    }
    length
}
