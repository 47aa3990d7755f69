//! All the instructions of bytes, with offsets.

ghost use Rattle.std.specs.Prelude.{◌≡◌, ◌<◌, ◌^◌, ◌++◌, ◌∷◌, [], length, MatchResult, OnOk};
ghost use Rattle.cf_instr.specs.Faults.{FaultAt};
ghost use Rattle.cf_instr.specs.Raws.{AreRaws};

use crate::NoMemory;
use crate::code_fault::{CodeFault, CodeKind};
use crate::reading::front_of;
use cf_form::Instr;
use std::alloc::Global;

/// The instructions that the bytes are, with offsets, and the first byte of each.
#[inline(never)]
pub fn raws_of(alloc: Global, bytes: &[u8]) -> Result<(Vec<Instr>, Vec<u32>), CodeFault>
    requires { length bytes.now < 2 ^ 31 }
    ensures { MatchResult result (λ x. AreRaws bytes.now x.0.items x.1.items []) (λ fault. FaultAt bytes.now fault.at fault.kind) }
{
    let Ok(mut raws) = Vec::with_capacity(alloc, bytes.len()) else {
        return Err(CodeFault::memory());
    };
    let Ok(mut starts) = Vec::with_capacity(alloc, bytes.len()) else {
        return Err(CodeFault::memory());
    };
    let mut rest = bytes;
    while !rest.is_empty() {
        let at = (bytes.len() - rest.len()) as u32;
        match front_of(rest) {
            Ok((raw, behind)) => match keep(&mut raws, &mut starts, raw, at) {
                Ok(()) => rest = behind,
                Err(NoMemory) => return Err(CodeFault::memory()),
            },
            Err(kind) => return Err(CodeFault { at, kind }),
        }
    }
    Ok((raws, starts))
}

// One more instruction, and its first byte.
fn keep(raws: &mut Vec<Instr>, starts: &mut Vec<u32>, raw: Instr, at: u32) -> Result<(), NoMemory>
    ensures raws { OnOk result (raws.new.items ≡ raws.old.items ++ raw ∷ []) }
    ensures starts { OnOk result (starts.new.items ≡ starts.old.items ++ at ∷ []) }
{
    raws.push(raw)?;
    starts.push(at)?;
    Ok(())
}
