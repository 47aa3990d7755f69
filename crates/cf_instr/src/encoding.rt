//! A method's code to bytes.

ghost use Rattle.std.specs.Prelude.{◌≡◌, ◌≤◌, length, IfOk};
ghost use Rattle.cf_form.specs.Instructions.{IsCode, code_bytes, offset};
ghost use Rattle.cf_instr.specs.Offsets.{AreOffsets};
ghost use Rattle.cf_instr.specs.Raws.{AreLow, HasTarget, offset_from};

use crate::NoMemory;
use crate::settling::is_jump;
use crate::writing::put;
use cf_form::Instr;
use std::alloc::Global;

// The bytes of a code whose offsets are these.
pub(crate) fn encode_at(
    alloc: Global,
    instrs: &[Instr],
    offsets: &[u32],
) -> Result<Vec<u8>, NoMemory>
    requires code { IsCode instrs.now }
    requires short { offset instrs.now (length instrs.now) ≤ 65535 }
    requires offsets { AreOffsets instrs.now offsets.now }
    ensures { IfOk result (λ bytes. bytes.items ≡ code_bytes instrs.now) }
{
    let mut out = Vec::with_capacity(alloc, offsets[instrs.len()] as usize)?;
    for (n, instr) in instrs.iter().enumerate() {
        let raw = with_offset(*instr, offsets[n], offsets);
        put(&mut out, raw)?;
    }
    Ok(out)
}

// The instruction of the byte `at`, its jump with its offset.
fn with_offset(instr: Instr, at: u32, offsets: &[u32]) -> Instr
    requires target { HasTarget (length offsets.now) instr }
    requires low { AreLow offsets.now }
    requires here { at ≤ 65535 }
    ensures { result ≡ offset_from offsets.now at instr }
{
    if !is_jump(instr.op) {
        return instr;
    }
    let to = offsets[instr.a as usize];
    Instr {
        op: instr.op,
        wide: instr.wide,
        a: to as i32 - at as i32,
        b: instr.b,
    }
}
