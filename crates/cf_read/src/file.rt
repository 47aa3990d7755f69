//! The class file that bytes are, its codes looked into after the whole file, and its fault's offset.

ghost use Rattle.std.specs.Prelude.{◌≡◌, ◌<◌, ◌^◌, length, MatchResult, Ok};
ghost use Rattle.cf_read.specs.FileFaults.{IsFileFault};
ghost use Rattle.cf_read.specs.Looking.{IsReadWhole, IsFileStop};
ghost use Rattle.cf_read.specs.Reading.{outline_of};
ghost use Rattle.cf_read.specs.Views.{file_of};

use crate::codes::methods_with_codes;
use crate::fault::Stop;
use crate::file_fault::{FileFault, FileKind};
use crate::outline::outline_of;
use crate::parts::FileParts;
use cf_form::ClassFile;
use sqlite_items::Items;
use std::alloc::Global;

/// The fault, with its offset in the file.
pub(crate) fn fault_of(bytes: &[u8], stop: Stop) -> FileFault
    requires short { length bytes.now < 2 ^ 32 }
    requires stops { IsFileStop bytes.now stop }
    ensures faults { IsFileFault bytes.now result }
    ensures memory { stop ≡ Stop.Memory → result.kind ≡ FileKind.Memory }
{
    match stop {
        Stop::Memory => FileFault {
            at: 0,
            kind: FileKind::Memory,
        },
        Stop::Met(fault) => FileFault {
            at: (bytes.len() - fault.left) as u32,
            kind: fault.kind,
        },
    }
}

/// The class file, each code looked into after the whole file.
pub(crate) fn read_whole(alloc: Global, bytes: &[u8]) -> Result<ClassFile, Stop>
    ensures { MatchResult result (IsReadWhole bytes.now) (IsFileStop bytes.now) }
{
    match outline_of(alloc, bytes) {
        Ok(parts) => with_codes(alloc, bytes, parts),
        Err(stop) => Err(stop),
    }
}

// The class file with these parts, the codes looked into.
fn with_codes(alloc: Global, bytes: &[u8], parts: FileParts) -> Result<ClassFile, Stop>
    requires { outline_of bytes.now ≡ Ok (file_of parts) }
    ensures { MatchResult result (IsReadWhole bytes.now) (IsFileStop bytes.now) }
{
    let FileParts {
        minor,
        major,
        pool,
        access,
        this,
        parent,
        interfaces,
        fields,
        methods,
    } = parts;
    let methods = methods_with_codes(alloc, &pool, &methods)?;
    Ok(ClassFile {
        minor,
        major,
        pool: Items::from_vec(pool),
        access,
        this,
        parent,
        interfaces: Items::from_vec(interfaces),
        fields: Items::from_vec(fields),
        methods: Items::from_vec(methods),
    })
}
