//! Exception tables, their offsets as numbers of instructions (JVMS 4.7.3).

ghost use Rattle.std.specs.Prelude.{◌≡◌, ◌<◌, ◌≤◌, ◌^◌, length, map, MatchResult};
ghost use Rattle.cf_form.specs.ClassFiles.{row_of as row_by, HandlerFits};
ghost use Rattle.cf_form.specs.Instructions.{IsCode, offset};
ghost use Rattle.cf_instr.specs.Offsets.{AreOffsets, IsNotFalling};
ghost use Rattle.cf_read.specs.Codes.{IsBadRow, CatchesClass};
ghost use Rattle.cf_read.specs.Looking.{AreHandlers, IsTableStop};
ghost use Rattle.cf_read.specs.Views.{row_of};

use crate::fault::{Stop, refused};
use crate::file_fault::FileKind;
use crate::numbers::skip;
use crate::parts::RowParts;
use cf_form::{Const, Handler, Instr, Kind, names};
use cf_instr::{number_at, offsets};
use sqlite_items::Items;
use std::alloc::Global;

/// The handlers of a code that these rows, which begin the bytes, are.
pub(crate) fn read_handlers(
    alloc: Global,
    pool: &[Const],
    code: &[Instr],
    rows: &[RowParts],
    from: &[u8],
) -> Result<Items<Handler>, Stop>
    requires short { offset code.now (length code.now) ≤ 65535 }
    requires few { length code.now ≤ 65535 }
    ensures { MatchResult result (AreHandlers pool.now code.now (map row_of rows.now)) (IsTableStop pool.now code.now (map row_of rows.now) from.now) }
{
    if rows.is_empty() {
        return Ok(Items::new(alloc));
    }
    let starts = match offsets(alloc, code) {
        Ok(starts) => starts,
        Err(_) => return Err(Stop::Memory),
    };
    let mut handlers = Items::new(alloc);
    for (n, row) in rows.iter().enumerate() {
        match handler_of(pool, code, &starts, *row) {
            Ok(handler) => handlers.push(handler)?,
            Err(fault) => {
                return Err(refused(fault.kind, skip(8 * n + fault.within, from)));
            }
        }
    }
    Ok(handlers)
}

// What is first wrong in a row, so many bytes from its beginning.
#[derive(Clone, Copy)]
struct RowFault {
    kind: FileKind,
    within: usize,
}

// The handler that a row is, by the offsets of the code's instructions.
fn handler_of(
    pool: &[Const],
    code: &[Instr],
    starts: &[u32],
    row: RowParts,
) -> Result<Handler, RowFault>
    requires offsets { AreOffsets code.now starts.now }
    requires not_falling { IsNotFalling starts.now }
    requires few { length code.now < 2 ^ 31 }
    ensures { MatchResult result (λ h. (row_of row ≡ row_by code.now h) × HandlerFits pool.now (length code.now) h) (λ e. IsBadRow pool.now code.now (row_of row) e.kind e.within) }
{
    let Some(from) = number_at(starts, row.from as u32) else {
        return Err(wrong(0));
    };
    let Some(to) = number_at(starts, row.to as u32) else {
        return Err(wrong(2));
    };
    let Some(target) = number_at(starts, row.target as u32) else {
        return Err(wrong(4));
    };
    if row.class != 0 && !names(pool, Kind::Class, row.class) {
        return Err(RowFault {
            kind: FileKind::Index,
            within: 6,
        });
    }
    Ok(Handler {
        from,
        to,
        target,
        class: row.class,
    })
}

// The offset that a row has so many bytes from its beginning is no boundary of the code.
fn wrong(within: usize) -> RowFault
    ensures { result ≡ record { kind = FileKind.Code; within = within } }
{
    RowFault {
        kind: FileKind::Code,
        within,
    }
}
