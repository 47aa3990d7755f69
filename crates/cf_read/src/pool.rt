//! The constant pool (JVMS 4.4).

ghost use Rattle.std.specs.Prelude.{◌≡◌, ◌++◌, ◌-◌, length, OnOk, MatchResult};
ghost use Rattle.cf_form.specs.Pool.{entries_of};
ghost use Rattle.cf_read.specs.Giving.{Gives};
ghost use Rattle.cf_read.specs.Reading.{entries_at, pool_at};

use crate::constants::constant_at;
use crate::fault::Stop;
use crate::numbers::u2_at;
use cf_form::Const;
use std::alloc::Global;

/// The pool, after its count of entries and one.
#[tactic(auto, unfolding(crate::specs::Reading::pool_at))]
pub(crate) fn pool_at(alloc: Global, bytes: &[u8]) -> Result<(Vec<Const>, &[u8]), Stop>
    ensures { Gives (λ x. (x.0.items, x.1.now)) result (pool_at bytes.now) }
{
    let (count, rest) = u2_at(bytes)?;
    entries_at(alloc, count.saturating_sub(1), rest)
}

// The constants of so many entries.
fn entries_at(alloc: Global, count: u16, bytes: &[u8]) -> Result<(Vec<Const>, &[u8]), Stop>
    ensures { Gives (λ x. (x.0.items, x.1.now)) result (entries_at count bytes.now) }
{
    let mut pool = Vec::with_capacity(alloc, usize::from(count))?;
    let mut rest = bytes;
    let mut left = count;
    while left > 0 {
        let (constant, after) = constant_at(alloc, left == 1, rest)?;
        left = push_entries(constant, left, &mut pool)?;
        rest = after;
    }
    Ok((pool, rest))
}

// Appends the entries that a constant takes, and gives how many of so many are left then.
fn push_entries(constant: Const, count: u16, pool: &mut Vec<Const>) -> Result<u16, Stop>
    ensures pool { OnOk result (pool.new.items ≡ pool.old.items ++ entries_of constant) }
    ensures left { MatchResult result (λ left. left ≡ count - length (entries_of constant)) (λ stop. stop ≡ Stop.Memory) }
{
    let is_wide = matches!(constant, Const::Long(_) | Const::Double(_));
    pool.push(constant)?;
    if is_wide {
        pool.push(Const::Rest)?;
        Ok(count.saturating_sub(2))
    } else {
        Ok(count.saturating_sub(1))
    }
}
