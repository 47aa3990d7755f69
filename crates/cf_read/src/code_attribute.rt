//! The Code attribute (JVMS 4.7.3).

ghost use Rattle.std.specs.Prelude.{◌≡◌, map};
ghost use Rattle.cf_read.specs.Giving.{Gives};
ghost use Rattle.cf_read.specs.Reading.{row_at, many_at, content_at, code_at};
ghost use Rattle.cf_read.specs.Views.{row_of, found_of};

use crate::attributes::attributes_at;
use crate::fault::{Stop, refused};
use crate::file_fault::FileKind;
use crate::numbers::{some_at, u2_at, u4_at};
use crate::parts::{CodeParts, RowParts};
use std::alloc::Global;

/// A Code attribute after its name, whose length is that of its content.
#[tactic(auto, unfolding(crate::specs::Reading::code_at))]
pub(crate) fn code_at(alloc: Global, bytes: &[u8]) -> Result<(CodeParts<'_>, &[u8]), Stop>
    ensures { Gives (λ x. (found_of x.0, x.1.now)) result (code_at bytes.now) }
{
    let (count, content) = u4_at(bytes)?;
    let (found, rest) = content_at(alloc, content)?;
    if count as usize + rest.len() == content.len() {
        Ok((found, rest))
    } else {
        Err(refused(FileKind::Code, bytes))
    }
}

// What a Code attribute has.
#[tactic(auto, unfolding(crate::specs::Reading::content_at))]
fn content_at(alloc: Global, bytes: &[u8]) -> Result<(CodeParts<'_>, &[u8]), Stop>
    ensures { Gives (λ x. (found_of x.0, x.1.now)) result (content_at bytes.now) }
{
    let (max_stack, rest) = u2_at(bytes)?;
    let (max_locals, from_count) = u2_at(rest)?;
    let (count, code_from) = u4_at(from_count)?;
    if count < 1 || 65535 < count {
        return Err(refused(FileKind::Code, from_count));
    }
    let (code, rest) = some_at(count as usize, code_from)?;
    let (many, rows_from) = u2_at(rest)?;
    let (rows, rest) = read_rows(alloc, many, rows_from)?;
    let rest = attributes_at(rest)?;
    let found = CodeParts {
        max_stack,
        max_locals,
        code,
        code_from,
        rows,
        rows_from,
    };
    Ok((found, rest))
}

// So many rows of an exception table.
fn read_rows(alloc: Global, count: u16, bytes: &[u8]) -> Result<(Vec<RowParts>, &[u8]), Stop>
    ensures { Gives (λ x. (map row_of x.0.items, x.1.now)) result (many_at row_at count bytes.now) }
{
    let mut rows = Vec::new(alloc);
    let mut rest = bytes;
    for _ in 0..count {
        let (row, after) = row_at(rest)?;
        rows.push(row)?;
        rest = after;
    }
    Ok((rows, rest))
}

// A row of an exception table.
#[tactic(auto, unfolding(crate::specs::Reading::row_at))]
fn row_at(bytes: &[u8]) -> Result<(RowParts, &[u8]), Stop>
    ensures { Gives (λ x. (row_of x.0, x.1.now)) result (row_at bytes.now) }
{
    let (from, rest) = u2_at(bytes)?;
    let (to, rest) = u2_at(rest)?;
    let (target, rest) = u2_at(rest)?;
    let (class, rest) = u2_at(rest)?;
    let row = RowParts {
        from,
        to,
        target,
        class,
    };
    Ok((row, rest))
}
