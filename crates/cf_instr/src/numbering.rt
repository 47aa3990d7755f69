//! The number of the instruction that begins at a byte, by a table over all bytes.

ghost use Rattle.std.specs.Prelude.{◌≡◌, ◌<◌, ◌^◌, ℕ, length, slice_index, IfOk};
ghost use Rattle.cf_instr.specs.Raws.{AreApart, AreNumbers};

use std::alloc::{AllocError, Global};

// What the table has where no instruction begins.
const NONE: u32 = 0xFFFF_FFFF;

/// For each of so many bytes the number of the instruction that begins there, by the first bytes of all.
#[inline(never)]
pub fn numbers_of(alloc: Global, starts: &[u32], len: usize) -> Result<Vec<u32>, AllocError>
    requires apart { AreApart starts.now }
    requires few { length starts.now < 2 ^ 31 }
    requires within { (k : ℕ) → k < length starts.now → slice_index starts.now k < len }
    ensures numbers { IfOk result (λ v. AreNumbers starts.now (length starts.now) v.items) }
    ensures many { IfOk result (λ v. length v.items ≡ len) }
{
    let mut numbers = vec![in alloc; NONE; len]?;
    write_numbers(&mut numbers, starts);
    Ok(numbers)
}

// Writes the number of each instruction at its first byte, where nothing was written before.
fn write_numbers(numbers: &mut [u32], starts: &[u32])
    requires apart { AreApart starts.now }
    requires few { length starts.now < 2 ^ 31 }
    requires within { (k : ℕ) → k < length starts.now → slice_index starts.now k < length numbers.old }
    requires empty { AreNumbers starts.now 0 numbers.old }
    ensures numbers { AreNumbers starts.now (length starts.now) numbers.new }
    ensures many { length numbers.new ≡ length numbers.old }
{
    for (n, start) in starts.iter().enumerate() {
        numbers[*start as usize] = n as u32;
    }
}
