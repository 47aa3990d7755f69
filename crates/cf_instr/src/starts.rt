//! Where the instructions of a code begin.

ghost use Rattle.std.specs.Prelude.{◌≡◌, ◌<◌, ◌^◌, length, IfOk};
ghost use Rattle.cf_form.specs.Instructions.{size, offset};
ghost use Rattle.cf_instr.specs.Reading.{width};
ghost use Rattle.cf_instr.specs.Offsets.{AreOffsets, IsNotFalling};

use crate::NoMemory;
use cf_form::{Instr, Shape, shape_of};
use std::alloc::Global;

/// How many bytes the instruction takes (JVMS 6.5).
pub fn size(instr: &Instr) -> u32
    ensures { result ≡ size instr.now }
{
    match shape_of(instr.op) {
        Some(shape) => {
            let operands = operand_count(shape, instr.wide);
            if instr.wide {
                2 + operands
            } else {
                1 + operands
            }
        }
        None => 0,
    }
}

/// How many bytes the code takes.
pub fn code_len(instrs: &[Instr]) -> u32
    requires { offset instrs.now (length instrs.now) < 2 ^ 32 }
    ensures { result ≡ offset instrs.now (length instrs.now) }
{
    let mut len = 0;
    for instr in instrs {
        len += size(instr);
    }
    len
}

/// The first byte of each instruction, counted from 0, and at last the length in bytes.
pub fn offsets(alloc: Global, instrs: &[Instr]) -> Result<Vec<u32>, NoMemory>
    requires { offset instrs.now (length instrs.now) < 2 ^ 32 }
    ensures offsets { IfOk result (λ v. AreOffsets instrs.now v.items) }
    ensures not_falling { IfOk result (λ v. IsNotFalling v.items) }
{
    let mut offsets = Vec::with_capacity(alloc, instrs.len() + 1)?;
    let mut at = 0;
    offsets.push(at)?;
    for instr in instrs {
        at += size(instr);
        offsets.push(at)?;
    }
    Ok(offsets)
}

// How many bytes the operands of this shape take.
fn operand_count(shape: Shape, wide: bool) -> u32
    ensures { result ≡ width shape wide }
{
    match shape {
        Shape::Plain | Shape::Wide => 0,
        Shape::Signed1 | Shape::Pool1 => 1,
        Shape::Signed2 | Shape::Pool2 | Shape::Jump2 => 2,
        Shape::Local => if wide { 2 } else { 1 },
        Shape::Step => if wide { 4 } else { 2 },
        Shape::Jump4 | Shape::Face => 4,
    }
}
