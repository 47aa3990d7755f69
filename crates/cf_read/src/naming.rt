//! Whether instructions name entries of the kinds that they need (JVMS 4.9.1).

ghost use Rattle.std.specs.Prelude.{◌↔◌, ◌≡◌, ◌<◌, ◌^◌, IsTrue, MatchOption, IfSome};
ghost use Rattle.std.specs.List.{AllByRecursion};
ghost use Rattle.cf_form.specs.ClassFiles.{NamesWell};
ghost use Rattle.cf_form.specs.Pool.{entry, names};
ghost use Rattle.std.specs.Option.{option_copied};
ghost use Rattle.cf_form.specs.Instructions.{number, IsCode, code_bytes};
ghost use Rattle.cf_read.specs.Looking.{AllNameWell, IsUnnamedAt};

use cf_form::{Const, Instr, Kind, is_of, kind_needed};
use cf_instr::front_of;

/// The first byte of the first of a code's instructions that doesn't name what it needs. The bytes are gone through only
/// where there is one.
pub(crate) fn first_unnamed_of(pool: &[Const], code: &[u8], instrs: &[Instr]) -> Option<usize>
    requires is_code { IsCode instrs.now }
    requires spelled { code.now ≡ code_bytes instrs.now }
    ensures named { MatchOption result (AllByRecursion (NamesWell pool.now) instrs.now) (IsUnnamedAt pool.now code.now) }
    ensures within { IfSome result (λ at. at < 2 ^ 63) }
{
    if all_name_well(pool, instrs) {
        return None;
    }
    first_unnamed(pool, code)
}

// Whether each of these instructions names what it needs.
#[inline(never)]
fn all_name_well(pool: &[Const], instrs: &[Instr]) -> bool
    ensures { IsTrue result ↔ AllByRecursion (NamesWell pool.now) instrs.now }
{
    for instr in instrs {
        if !names_well(pool, *instr) {
            return false;
        }
    }
    true
}

/// The first byte of the first instruction that doesn't name what it needs, behind whole ones that do.
pub(crate) fn first_unnamed(pool: &[Const], code: &[u8]) -> Option<usize>
    ensures named { MatchOption result (AllNameWell pool.now code.now) (IsUnnamedAt pool.now code.now) }
    ensures within { IfSome result (λ at. at < 2 ^ 63) }
{
    let mut rest = code;
    while !rest.is_empty() {
        match front_of(rest) {
            Err(_) => return None,
            Ok((instr, after)) => {
                if !names_well(pool, instr) {
                    return Some(code.len() - rest.len());
                }
                rest = after;
            }
        }
    }
    None
}

// Whether the index that the instruction has names an entry of the kind that its opcode needs.
fn names_well(pool: &[Const], instr: Instr) -> bool
    ensures { IsTrue result ↔ NamesWell pool.now instr }
{
    match kind_needed(instr.op) {
        Some(needed) => has_kind_at(pool, needed, instr.a),
        None => true,
    }
}

// Whether this index names an entry of this kind.
fn has_kind_at(pool: &[Const], needed: Kind, index: i32) -> bool
    ensures { result ≡ names pool.now needed (number index) }
{
    match entry_at(pool, index.max(0) as usize) {
        Some(constant) => is_of(needed, constant),
        None => false,
    }
}

// The entry of this index.
fn entry_at(pool: &[Const], index: usize) -> Option<&Const>
    ensures { option_copied result ≡ entry pool.now index }
{
    if index == 0 {
        None
    } else {
        pool.get(index - 1)
    }
}
