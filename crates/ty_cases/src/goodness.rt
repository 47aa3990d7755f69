//! Questions on goodness and room.

ghost use Rattle.std.specs.Prelude.{◌≡◌, ◌++◌, IfOk, codes, string_bytes};
ghost use Rattle.ty_good.specs.Good.{GoodWith};
ghost use Rattle.ty_room.specs.Room.{Room};
ghost use Rattle.ty_cases.specs.Tells.{Tells};

use crate::answers::yes_or_no;
use crate::holding::holds;
use crate::locals::class_locals;
use crate::part::PARTS;
use std::alloc::Global;
use ty_good::is_good_with;
use ty_prog::{NoMemory, Program};
use ty_room::has_room;
use ty_text::{Parts, ProgramFault, Source};
use ty_typed::ClassLocals;

// `good K`: after K lowerings, or the parts that don't hold.
pub(crate) fn good(
    alloc: Global,
    source: &Source,
    parts: &mut Parts,
) -> Result<String, ProgramFault> {
    let k = parts.number();
    let locals = class_locals(alloc, source.locals.as_slice())?;
    good_told(alloc, k, &source.program, locals.as_slice())
}

// Whether the program is good.
#[tactic(auto, using(crate::proofs::Tells::tells_yes, crate::proofs::Tells::tells_no))]
fn good_told(
    alloc: Global,
    k: u32,
    p: &Program,
    locals: &[ClassLocals],
) -> Result<String, ProgramFault>
    ensures { IfOk result (λ text. Tells (GoodWith k p.now locals.now) (string_bytes text)) }
{
    if is_good_with(alloc, k, p, locals)? {
        return yes_or_no(alloc, true);
    }
    let names = broken(alloc, k, p, locals)?;
    no_and(alloc, names.as_str())
}

// `no` with a text behind it.
fn no_and(alloc: Global, more: &str) -> Result<String, ProgramFault>
    ensures { IfOk result (λ text. string_bytes text ≡ codes "no" ++ more.now) }
{
    let mut told = String::from_str(alloc, "no")?;
    told.push_str(more)?;
    Ok(told)
}

// The names of the parts that don't hold, each behind a blank.
fn broken(alloc: Global, k: u32, p: &Program, locals: &[ClassLocals]) -> Result<String, NoMemory> {
    let mut text = String::new(alloc);
    for (name, part) in &PARTS {
        if !holds(alloc, *part, k, p, locals)? {
            text.push(' ')?;
            text.push_str(*name)?;
        }
    }
    Ok(text)
}

// `room K`: after K lowerings.
pub(crate) fn room(
    alloc: Global,
    source: &Source,
    parts: &mut Parts,
) -> Result<String, ProgramFault> {
    let k = parts.number();
    room_told(alloc, k, &source.program)
}

// Whether the program has room.
#[tactic(auto, using(crate::proofs::Tells::tells))]
fn room_told(alloc: Global, k: u32, p: &Program) -> Result<String, ProgramFault>
    ensures { IfOk result (λ text. Tells (Room k p.now) (string_bytes text)) }
{
    yes_or_no(alloc, has_room(p, k))
}
