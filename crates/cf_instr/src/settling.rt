//! The targets of jumps, from bytes to numbers of instructions.

ghost use Rattle.std.specs.Prelude.{◌≡◌, ◌≢◌, ◌<◌, ◌≤◌, ◌^◌, ℕ, length, slice_index, MatchOption, MatchResult, IsTrue, true};
ghost use Rattle.cf_form.specs.Opcodes.{shape_of};
ghost use Rattle.cf_form.specs.Instructions.{jumps_by};
ghost use Rattle.cf_instr.specs.Offsets.{IsNotFalling};
ghost use Rattle.cf_instr.specs.Raws.{AreStarts, AreNumbers, LeadsNowhere, LeadsTo, Settles, AreSettled, IsFirstAstray};

use cf_form::{Instr, Shape, shape_of};

/// Whether this opcode is a jump's.
#[inline(always)]
pub fn is_jump(op: u8) -> bool
    ensures { result ≡ jumps_by (shape_of op) }
{
    matches!(shape_of(op), Some(Shape::Jump2 | Shape::Jump4))
}

/// Whether none of these instructions, which begin there, is a jump, so that nothing is to be settled. Where they begin is
/// for the contract alone.
#[inline(never)]
pub fn is_settled(raws: &[Instr], starts: &[u32]) -> bool
    requires { AreStarts raws.now starts.now }
    ensures { IsTrue result → AreSettled raws.now (length raws.now) raws.now }
{
    for raw in raws {
        if is_jump(raw.op) {
            return false;
        }
    }
    true
}

/// Puts the numbers of targets in place of the offsets of these instructions, which begin there. The fault is the byte of
/// the first jump that goes astray.
#[inline(never)]
pub fn settle(raws: &mut [Instr], starts: &[u32], numbers: &[u32]) -> Result<(), u32>
    requires starts { AreStarts raws.old starts.now }
    requires many { length raws.old < 2 ^ 31 }
    requires numbers { AreNumbers starts.now (length starts.now) numbers.now }
    requires low { (k : ℕ) → k < length starts.now → slice_index starts.now k < length numbers.now }
    ensures { MatchResult result (λ _. AreSettled raws.old (length raws.old) raws.new) (IsFirstAstray raws.old) }
{
    for n in 0..raws.len() {
        let at = starts[n];
        let Some(instr) = settled(raws[n], at, starts, numbers) else {
            return Err(at);
        };
        raws[n] = instr;
    }
    Ok(())
}

// The instruction of the byte `at`, its jump with the number of its target. None where it goes astray.
fn settled(raw: Instr, at: u32, starts: &[u32], numbers: &[u32]) -> Option<Instr>
    requires many { length starts.now < 2 ^ 31 }
    requires numbers { AreNumbers starts.now (length starts.now) numbers.now }
    requires low { (k : ℕ) → k < length starts.now → slice_index starts.now k < length numbers.now }
    ensures { MatchOption result ((jumps_by (shape_of raw.op) ≡ true) × LeadsNowhere starts.now at raw.a) (Settles starts.now at raw) }
{
    if !is_jump(raw.op) {
        return Some(raw);
    }
    match target(at, raw.a, starts, numbers) {
        Some(m) => Some(Instr {
            op: raw.op,
            wide: raw.wide,
            a: m as i32,
            b: raw.b,
        }),
        None => None,
    }
}

// The number of the instruction to which an offset from the byte `at` leads.
fn target(at: u32, offset: i32, starts: &[u32], numbers: &[u32]) -> Option<u32>
    requires numbers { AreNumbers starts.now (length starts.now) numbers.now }
    requires low { (k : ℕ) → k < length starts.now → slice_index starts.now k < length numbers.now }
    ensures { MatchOption result (LeadsNowhere starts.now at offset) (LeadsTo starts.now at offset) }
{
    let to = i64::from(at) + i64::from(offset);
    if to < 0 {
        return None;
    }
    match numbers.get(to as usize) {
        Some(m) if (*m as usize) < starts.len() => Some(*m),
        _ => None,
    }
}

/// The number of the instruction that begins at this byte, by the first bytes of all.
pub fn number_at(starts: &[u32], at: u32) -> Option<u32>
    requires many { length starts.now ≤ 2 ^ 31 }
    requires not_falling { IsNotFalling starts.now }
    ensures { MatchOption result ((k : ℕ) → k < length starts.now → slice_index starts.now k ≢ at) (λ m. (m < length starts.now) × (slice_index starts.now m ≡ at)) }
{
    match starts.binary_search(&at) {
        Ok(m) => Some(m as u32),
        Err(_) => None,
    }
}
