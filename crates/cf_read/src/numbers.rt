//! Numbers at the front of bytes, the high byte first.

ghost use Rattle.std.specs.Prelude.{◌≡◌, length, drop, IfOk};
ghost use Rattle.cf_read.specs.Giving.{Gives};
ghost use Rattle.cf_read.specs.Reading.{some_at, u1_at, u2_at, u4_at, u8_at, two_at};

use crate::fault::{Stop, refused};
use crate::file_fault::FileKind;

/// The first `count` bytes, and those behind them.
#[tactic(auto, unfolding(crate::specs::Reading::some_at))]
pub(crate) fn some_at(count: usize, bytes: &[u8]) -> Result<(&[u8], &[u8]), Stop>
    ensures read { Gives (λ x. (x.0.now, x.1.now)) result (some_at count bytes.now) }
    ensures long { IfOk result (λ x. length x.0.now ≡ count) }
{
    if bytes.len() < count {
        return Err(refused(FileKind::Cut, &[]));
    }
    Ok(bytes.split_at(count))
}

/// The bytes behind the first `count` ones.
pub(crate) fn skip(count: usize, bytes: &[u8]) -> &[u8]
    ensures { result.now ≡ drop count bytes.now }
{
    if count < bytes.len() {
        &bytes[count..]
    } else {
        &[]
    }
}

/// A byte.
#[tactic(auto, unfolding(crate::specs::Reading::u1_at))]
pub(crate) fn u1_at(bytes: &[u8]) -> Result<(u8, &[u8]), Stop>
    ensures { Gives (λ x. (x.0, x.1.now)) result (u1_at bytes.now) }
{
    match bytes {
        [] => Err(refused(FileKind::Cut, &[])),
        [byte, rest @ ..] => Ok((*byte, rest)),
    }
}

/// Two bytes.
#[tactic(auto, unfolding(crate::specs::Reading::u2_at))]
pub(crate) fn u2_at(bytes: &[u8]) -> Result<(u16, &[u8]), Stop>
    ensures { Gives (λ x. (x.0, x.1.now)) result (u2_at bytes.now) }
{
    let (two, rest) = some_at(2, bytes)?;
    Ok((u16::from_be_bytes([two[0], two[1]]), rest))
}

/// Four bytes.
#[tactic(auto, unfolding(crate::specs::Reading::u4_at))]
pub(crate) fn u4_at(bytes: &[u8]) -> Result<(u32, &[u8]), Stop>
    ensures { Gives (λ x. (x.0, x.1.now)) result (u4_at bytes.now) }
{
    let (four, rest) = some_at(4, bytes)?;
    let number = u32::from_be_bytes([four[0], four[1], four[2], four[3]]);
    Ok((number, rest))
}

/// Eight bytes.
#[tactic(auto, unfolding(crate::specs::Reading::u8_at))]
pub(crate) fn u8_at(bytes: &[u8]) -> Result<(u64, &[u8]), Stop>
    ensures { Gives (λ x. (x.0, x.1.now)) result (u8_at bytes.now) }
{
    let (eight, rest) = some_at(8, bytes)?;
    let number = u64::from_be_bytes([
        eight[0], eight[1], eight[2], eight[3], eight[4], eight[5], eight[6], eight[7],
    ]);
    Ok((number, rest))
}

/// Two numbers of two bytes.
#[tactic(auto, unfolding(crate::specs::Reading::two_at))]
pub(crate) fn two_at(bytes: &[u8]) -> Result<(u16, u16, &[u8]), Stop>
    ensures { Gives (λ x. ((x.0, x.1), x.2.now)) result (two_at bytes.now) }
{
    let (one, rest) = u2_at(bytes)?;
    let (other, rest) = u2_at(rest)?;
    Ok((one, other, rest))
}
