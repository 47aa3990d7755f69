//! Code attributes.

ghost use Rattle.std.specs.Prelude.{◌≡◌, ◌≤◌, ◌++◌, EachIndex, length, slice_index, Some, OnOk};
ghost use Rattle.std.specs.List.{flat_map};
ghost use Rattle.cf_form.specs.Instructions.{code_bytes};
ghost use Rattle.cf_form.specs.Outline.{counted};
ghost use Rattle.cf_write.specs.Spelling.{attributes_bytes, code_info, handler_bytes};
ghost use Rattle.cf_instr.specs.Offsets.{AreOffsets};
ghost use Rattle.cf_write.specs.Offsets.{IsAmong, bytes_at};
ghost use Rattle.cf_write.specs.Writable.{CodeIsWritable};

use crate::NoMemory;
use crate::numbers::{put_four, put_two};
use cf_form::{Code, Handler};
use cf_instr::{encode_onto, offsets};
use std::alloc::Global;

/// Appends the count of a method's attributes, which is 1, and its Code attribute (JVMS 4.7.3). `name` is the index of the
/// text `Code`.
pub fn put_code(alloc: Global, into: &mut Vec<u8>, name: u16, code: &Code) -> Result<(), NoMemory>
    requires { CodeIsWritable code.now }
    ensures { OnOk result (into.new.items ≡ into.old.items ++ attributes_bytes name (Some code.now)) }
{
    let starts = offsets(alloc, code.instrs.as_slice())?;
    put_two(into, 1)?;
    put_two(into, name)?;
    put_four(into, info_size(code, starts.as_slice()))?;
    put_info(alloc, into, code, starts.as_slice())
}

// How many bytes stand in a Code attribute.
fn info_size(code: &Code, starts: &[u32]) -> u32
    requires writable { CodeIsWritable code.now }
    requires starts { AreOffsets code.now.instrs starts.now }
    ensures { result ≡ length (code_info code.now) }
{
    12 + code_size(code, starts) + 8 * code.handlers.len() as u32
}

// How many bytes the code has.
fn code_size(code: &Code, starts: &[u32]) -> u32
    requires { AreOffsets code.now.instrs starts.now }
    ensures { result ≡ length (code_bytes code.now.instrs) }
{
    starts[code.instrs.len()]
}

// Appends what stands in a Code attribute.
#[tactic(auto, unfolding(crate::specs::Spelling::code_info))]
fn put_info(alloc: Global, into: &mut Vec<u8>, code: &Code, starts: &[u32]) -> Result<(), NoMemory>
    requires writable { CodeIsWritable code.now }
    requires starts { AreOffsets code.now.instrs starts.now }
    ensures { OnOk result (into.new.items ≡ into.old.items ++ code_info code.now) }
{
    put_two(into, code.max_stack)?;
    put_two(into, code.max_locals)?;
    put_four(into, code_size(code, starts))?;
    encode_onto(alloc, into, code.instrs.as_slice(), starts)?;
    put_handlers(into, code, starts)?;
    put_two(into, 0)
}

// Appends the handlers after their count.
fn put_handlers(into: &mut Vec<u8>, code: &Code, starts: &[u32]) -> Result<(), NoMemory>
    requires writable { CodeIsWritable code.now }
    requires starts { AreOffsets code.now.instrs starts.now }
    ensures { OnOk result (into.new.items ≡ into.old.items ++ counted (handler_bytes code.now.instrs) code.now.handlers) }
{
    put_two(into, code.handlers.len() as u16)?;
    put_each_handler(into, code, starts)
}

// Appends the handlers.
fn put_each_handler(into: &mut Vec<u8>, code: &Code, starts: &[u32]) -> Result<(), NoMemory>
    requires writable { CodeIsWritable code.now }
    requires starts { AreOffsets code.now.instrs starts.now }
    ensures { OnOk result (into.new.items ≡ into.old.items ++ flat_map (handler_bytes code.now.instrs) code.now.handlers) }
{
    for handler in code.handlers.as_slice() {
        put_handler(into, *handler, starts)?;
    }
    Ok(())
}

// Appends a handler, its ends as offsets in bytes.
fn put_handler(into: &mut Vec<u8>, handler: Handler, starts: &[u32]) -> Result<(), NoMemory>
    requires among { IsAmong starts.now handler }
    requires small { EachIndex starts.now (λ k. slice_index starts.now k ≤ 65535) }
    ensures { OnOk result (into.new.items ≡ into.old.items ++ bytes_at starts.now handler) }
{
    put_two(into, starts[handler.from as usize] as u16)?;
    put_two(into, starts[handler.to as usize] as u16)?;
    put_two(into, starts[handler.target as usize] as u16)?;
    put_two(into, handler.class)
}
