//! A method's code both ways, from the table of opcodes (JVMS 4.7.3, 6.5).
#![tactic(auto)]

ghost use Rattle.std.specs.Prelude.{◌≡◌, ◌≤◌, ◌<◌, ◌^◌, ◌++◌, List, length, IfOk, IfErr, OnOk, OnErr, MatchResult};
ghost use Rattle.cf_form.specs.Instructions.{IsCode, code_bytes, offset};
ghost use Rattle.cf_instr.specs.Faults.{IsFault};
ghost use Rattle.cf_instr.specs.Offsets.{AreOffsets};

mod code_fault;
mod decoding;
mod encoding;
mod laws;
mod numbering;
mod numbers;
mod operands;
mod raws;
mod reading;
mod settling;
mod starts;
#[cfg(test)]
mod tests;
mod writing;

use cf_form::Instr;
pub use code_fault::{CodeFault, CodeKind};
use decoding::whole;
use encoding::encode_at;
pub use laws::{coding, rising};
pub use reading::front_of;
pub use settling::number_at;
pub use sl_base::NoMemory;
pub use starts::{code_len, offsets, size};
use std::alloc::Global;

/// The code that the bytes are (JVMS 4.7.3), the offsets of its jumps as numbers of instructions. The fault tells the first
/// byte of the first instruction that none can be; where all are instructions, of the first that jumps to no instruction.
pub fn decode(alloc: Global, bytes: &[u8]) -> Result<Vec<Instr>, CodeFault>
    requires { length bytes.now < 2 ^ 31 }
    // What is read is spelled so.
    ensures found { IfOk result (λ code. IsCode code.items × (bytes.now ≡ code_bytes code.items)) }
    // What is spelled so is read, unless memory runs out.
    ensures only { (code : List Instr) → IsCode code → bytes.now ≡ code_bytes code → MatchResult result (λ read. read.items ≡ code) (λ fault. fault ≡ record { at = 0; kind = CodeKind.Memory }) }
    // Which fault it is.
    ensures faults { IfErr result (IsFault bytes.now) }
{
    whole(alloc, bytes)
}

/// The bytes of a code (JVMS 4.7.3), its targets' numbers as offsets. It is short enough that each of its offsets is one of
/// two bytes.
pub fn encode(alloc: Global, instrs: &[Instr]) -> Result<Vec<u8>, NoMemory>
    requires code { IsCode instrs.now }
    requires short { offset instrs.now (length instrs.now) ≤ 65535 }
    ensures { IfOk result (λ bytes. bytes.items ≡ code_bytes instrs.now) }
{
    let offsets = offsets(alloc, instrs)?;
    encode_at(alloc, instrs, &offsets)
}

/// Appends the bytes of a code (JVMS 4.7.3), whose offsets are these, or nothing where memory runs out.
pub fn encode_onto(
    alloc: Global,
    out: &mut Vec<u8>,
    instrs: &[Instr],
    offsets: &[u32],
) -> Result<(), NoMemory>
    requires code { IsCode instrs.now }
    requires short { offset instrs.now (length instrs.now) ≤ 65535 }
    requires offsets { AreOffsets instrs.now offsets.now }
    ensures ok { OnOk result (out.new.items ≡ out.old.items ++ code_bytes instrs.now) }
    ensures err { OnErr result (out.new.items ≡ out.old.items) }
{
    let bytes = encode_at(alloc, instrs, offsets)?;
    out.extend_from_slice(&bytes)?;
    Ok(())
}
