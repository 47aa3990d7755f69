//! Calls of the reader and the writer, again and again.

ghost use Rattle.std.specs.Prelude.{◌≡◌, ◌<◌, ◌^◌, List, ℕ, length};
ghost use Rattle.cf_form.specs.ClassFiles.{Reads};

use cf_form::ClassFile;
use cf_read::{FileFault, read};
use cf_write::{rewriting, write};
use std::alloc::Global;

/// Reads the bytes so often, but at least once.
pub fn read_often(alloc: Global, bytes: &[u8], times: u32) -> Result<(), FileFault>
    requires { length bytes.now < 2 ^ 32 }
{
    for _more in 1..times {
        let _file = read(alloc, bytes)?;
    }
    let _file = read(alloc, bytes)?;
    Ok(())
}

/// Reads the bytes once, and writes what was read so often, but at least once. None where it can't be read, or memory runs
/// out.
pub fn written_often(alloc: Global, bytes: &[u8], times: u32) -> Option<Vec<u8>>
    requires { length bytes.now < 2 ^ 32 }
{
    let Ok(file) = read(alloc, bytes) else {
        return None;
    };
    for _more in 1..times {
        written(alloc, &file)?;
    }
    written(alloc, &file)
}

// What is written of a file that was read.
fn written(alloc: Global, file: &ClassFile) -> Option<Vec<u8>>
    requires { (bytes : List ℕ) × Reads bytes file.now }
{
    rewriting();
    write(alloc, file).ok()
}
