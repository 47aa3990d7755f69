//! The codes of a class file, which are looked into after the whole file (JVMS 4.7.3, 4.9.1).

ghost use Rattle.std.specs.Prelude.{◌≡◌, ◌≢◌, ◌≤◌, ◌<◌, ◌+◌, ◌^◌, length, drop, map, MatchResult};
ghost use Rattle.std.specs.List.{AllByRecursion};
ghost use Rattle.cf_form.specs.ClassFiles.{Each, NamesWell};
ghost use Rattle.cf_form.specs.Instructions.{IsCode, code_bytes};
ghost use Rattle.cf_instr.specs.Faults.{IsFault};
ghost use Rattle.cf_read.specs.Codes.{IsRead, IsMethodRead};
ghost use Rattle.cf_read.specs.Looking.{IsCodeStop, IsMethodStop, IsMethodsStop, IsShort};
ghost use Rattle.cf_read.specs.Views.{found_of, method_of};

use crate::fault::{Stop, refused};
use crate::file_fault::FileKind;
use crate::handlers::read_handlers;
use crate::naming::{first_unnamed, first_unnamed_of};
use crate::numbers::skip;
use crate::parts::{CodeParts, MethodParts};
use cf_form::{Code, Const, Instr, MethodInfo};
use cf_instr::{CodeFault, CodeKind, decode};
use sqlite_items::Items;
use std::alloc::Global;

/// A method with its code.
pub(crate) fn method_with_code(
    alloc: Global,
    pool: &[Const],
    method: &MethodParts,
) -> Result<MethodInfo, Stop>
    requires { IsShort (method_of method.now) }
    ensures { MatchResult result (IsMethodRead pool.now (method_of method.now)) (IsMethodStop pool.now (method_of method.now)) }
{
    let code = match &method.code {
        None => None,
        Some(found) => Some(code_of(alloc, pool, found)?),
    };
    Ok(MethodInfo {
        access: method.access,
        name: method.name,
        descriptor: method.descriptor,
        code,
    })
}

// The code that was found.
fn code_of(alloc: Global, pool: &[Const], found: &CodeParts) -> Result<Code, Stop>
    requires { length found.now.code.now ≤ 65535 }
    ensures { MatchResult result (IsRead pool.now (found_of found.now)) (IsCodeStop pool.now (found_of found.now)) }
{
    match decode(alloc, found.code) {
        Err(fault) => Err(first_fault(pool, found, fault)),
        Ok(instrs) => match first_unnamed_of(pool, found.code, &instrs) {
            Some(at) => Err(refused_index(found, at)),
            None => with_handlers(alloc, pool, found, instrs),
        },
    }
}

// The code that was found, with these instructions.
fn with_handlers(
    alloc: Global,
    pool: &[Const],
    found: &CodeParts,
    instrs: Vec<Instr>,
) -> Result<Code, Stop>
    requires short { length found.now.code.now ≤ 65535 }
    requires is_code { IsCode instrs.items }
    requires instrs { found.now.code.now ≡ code_bytes instrs.items }
    requires names { AllByRecursion (NamesWell pool.now) instrs.items }
    ensures { MatchResult result (IsRead pool.now (found_of found.now)) (IsCodeStop pool.now (found_of found.now)) }
{
    let rows = found.rows.as_slice();
    match read_handlers(alloc, pool, &instrs, rows, found.rows_from) {
        Ok(handlers) => Ok(Code {
            max_stack: found.max_stack,
            max_locals: found.max_locals,
            instrs: Items::from_vec(instrs),
            handlers,
        }),
        Err(stop) => Err(stop),
    }
}

// The first fault of a code whose bytes are refused.
fn first_fault(pool: &[Const], found: &CodeParts, fault: CodeFault) -> Stop
    requires { IsFault found.now.code.now fault }
    ensures { IsCodeStop pool.now (found_of found.now) result }
{
    match fault.kind {
        CodeKind::Memory => Stop::Memory,
        _ => first_of(pool, found, fault),
    }
}

// Where memory isn't wanting: the code's fault, or that of an instruction before it.
fn first_of(pool: &[Const], found: &CodeParts, fault: CodeFault) -> Stop
    requires refused { IsFault found.now.code.now fault }
    requires some { fault.kind ≢ CodeKind.Memory }
    ensures { IsCodeStop pool.now (found_of found.now) result }
{
    let at = fault.at as usize;
    match first_unnamed(pool, found.code) {
        None => refused_code(found, at),
        Some(before) => {
            if before < at {
                refused_index(found, before)
            } else {
                refused_code(found, at)
            }
        }
    }
}

// The instruction at this byte is refused.
fn refused_code(found: &CodeParts, at: usize) -> Stop
    ensures { result ≡ Stop.Met (record { kind = FileKind.Code; left = length (drop at found.now.code_from.now) }) }
{
    refused(FileKind::Code, skip(at, found.code_from))
}

// The index of the instruction at this byte is refused.
fn refused_index(found: &CodeParts, at: usize) -> Stop
    requires { at < 2 ^ 63 }
    ensures { result ≡ Stop.Met (record { kind = FileKind.Index; left = length (drop (at + 1) found.now.code_from.now) }) }
{
    refused(FileKind::Index, skip(at + 1, found.code_from))
}

/// Methods with their codes.
pub(crate) fn methods_with_codes(
    alloc: Global,
    pool: &[Const],
    methods: &[MethodParts],
) -> Result<Vec<MethodInfo>, Stop>
    requires { AllByRecursion IsShort (map method_of methods.now) }
    ensures { MatchResult result (λ infos. Each (IsMethodRead pool.now) (map method_of methods.now) infos.items) (IsMethodsStop pool.now (map method_of methods.now)) }
{
    let mut infos = Vec::with_capacity(alloc, methods.len())?;
    for method in methods {
        let info = method_with_code(alloc, pool, method)?;
        infos.push(info)?;
    }
    Ok(infos)
}
