ghost use Rattle.std.specs.Prelude.{◌≡◌, ◌↔◌, ◌⊎◌, ◌≤◌, ◌<◌, ◌+◌, length, IfSome};
ghost use Rattle.std.specs.Io.{ReadsAtMost};
ghost use Rattle.std.specs.Io.KnownBytes.{ReadConsumes, Consumes, IsAtEnd};
ghost use Rattle.std.specs.IoError.{error_kind};
ghost use Rattle.sl_io.specs.Fetch.{IfBytes, OnMissing, OnLong};
ghost use Rattle.sl_io.specs.Reading.{ConsumesUpTo};

use crate::Fetch;
use sqlite_items::Items;
use std::alloc::Global;
use std::io::{self, ErrorKind, Read};

// One read, tried again where a signal interrupts it.
fn read_again<F: Read>(file: &mut F, buffer: &mut [u8]) -> io::Result<usize>
    ensures bound { ReadsAtMost result buffer.new }
    ensures bytes { ReadConsumes (F.remaining file.old) (F.remaining file.new) result buffer.new }
{
    for _ in 0..u64::MAX {
        match file.read(buffer) {
            Ok(count) => return Ok(count),
            Err(error) if error.kind() == ErrorKind::Interrupted => {}
            Err(error) => return Err(error),
        }
    }
    Err(io::Error::from(ErrorKind::Interrupted))
}

// The answer at an error of a read.
fn read_fault(error: &io::Error) -> Fetch
    ensures fault { (result ≡ Fetch.Memory) ⊎ (result ≡ Fetch.Failed) }
    ensures memory { (result ≡ Fetch.Memory) ↔ (error_kind error.now ≡ ErrorKind.OutOfMemory) }
{
    match error.kind() {
        ErrorKind::OutOfMemory => Fetch::Memory,
        _ => Fetch::Failed,
    }
}

// The answer where a file can't be opened.
pub fn open_fault(error: &io::Error) -> Fetch
    ensures fault { (result ≡ Fetch.Missing) ⊎ (result ≡ Fetch.Memory) ⊎ (result ≡ Fetch.Failed) }
    ensures missing { (result ≡ Fetch.Missing) ↔ (error_kind error.now ≡ ErrorKind.NotFound) }
    ensures memory { (result ≡ Fetch.Memory) ↔ (error_kind error.now ≡ ErrorKind.OutOfMemory) }
{
    match error.kind() {
        ErrorKind::NotFound => Fetch::Missing,
        ErrorKind::OutOfMemory => Fetch::Memory,
        _ => Fetch::Failed,
    }
}

// All bytes of a file of at most `most` bytes. It reads at most one byte more than that.
pub fn read_whole<F: Read>(alloc: Global, file: &mut F, most: u32) -> Fetch
    ensures bound { IfBytes result (λ bytes. length bytes ≤ most) }
    ensures bytes { IfBytes result (λ bytes. Consumes (F.remaining file.old) (F.remaining file.new) bytes) }
    ensures end { IfBytes result (λ _. IsAtEnd (F.remaining file.new)) }
    ensures long { OnLong result (IfSome (F.remaining file.old) (λ all. most < length all)) }
    ensures missing { OnMissing result ⊥ }
    ensures reads { ConsumesUpTo (F.remaining file.old) (F.remaining file.new) (most + 1) }
{
    let limit = most as usize;
    let mut bytes = Vec::new(alloc);
    let mut buffer = [0u8; 4096];
    loop {
        let room = (limit + 1 - bytes.len()).min(4096);
        let count = match read_again(file, &mut buffer[..room]) {
            Ok(0) => return Fetch::Bytes(Items::from_vec(bytes)),
            Ok(count) => count,
            Err(error) => return read_fault(&error),
        };
        if count > limit - bytes.len() {
            return Fetch::Long;
        }
        if bytes.extend_from_slice(&buffer[..count]).is_err() {
            return Fetch::Memory;
        }
    }
}
