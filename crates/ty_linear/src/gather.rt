//! Gathers classes into a list, each once. A mark for each class tells whether it is there: a mark that is the list's
//! stamp says so, and a list with a new, greater stamp finds all marks cleared.

ghost use Rattle.std.specs.Prelude.{◌≡◌, ◌<◌, length, reverse, OnOk};
ghost use Rattle.std.specs.List.{All};
ghost use Rattle.ty_linear.specs.Gather.{gathered, AreMarked};

use std::alloc::AllocError;

// Puts the classes that `found` lacks behind it, the last one first.
pub(crate) fn gather(
    found: &mut Vec<u32>,
    marks: &mut [u32],
    stamp: u32,
    classes: &[u32],
) -> Result<(), AllocError>
    requires within { All (λ class. class < length marks.old) classes.now }
    requires marked { AreMarked marks.old stamp found.old.items }
    ensures gathered { OnOk result (found.new.items ≡ gathered found.old.items (reverse classes.now)) }
    ensures marked { OnOk result (AreMarked marks.new stamp found.new.items) }
{
    for number in (0..classes.len()).rev() {
        let class = classes[number];
        if marks[class as usize] != stamp {
            marks[class as usize] = stamp;
            found.push(class)?;
        }
    }
    Ok(())
}
