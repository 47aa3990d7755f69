//! The first argument of a call, and those behind it.

ghost use Rattle.std.specs.Prelude.{◌≡◌, ◌++◌, drop, option_to_list, IfOk, OnOk};
ghost use Rattle.std.specs.Option.{option_copied};
ghost use Rattle.sm_act.specs.Forms.{first_of};

use sl_base::NoMemory;
use sm_rule::Args;
use sm_state::{Sequence, Value};
use std::alloc::Global;

// A copy of an argument at the end of others, if there is one.
fn push_copy(alloc: Global, made: &mut Args, v: Option<&Option<Value>>) -> Result<(), NoMemory>
    ensures { OnOk result (made.new ≡ made.old ++ option_to_list (option_copied v.entry)) }
{
    match v {
        Some(Some(v)) => {
            made.push(Some(v.copy(alloc)?))?;
            Ok(())
        }
        Some(None) => {
            made.push(None)?;
            Ok(())
        }
        None => Ok(()),
    }
}

// The arguments behind the first one.
fn behind_first(alloc: Global, args: &Args) -> Result<Args, NoMemory>
    ensures { IfOk result (λ rest. rest ≡ drop 1 args.now) }
{
    let mut rest = Sequence::new(alloc);
    let mut at: usize = 1;
    while at < args.len() {
        push_copy(alloc, &mut rest, args.get(at))?;
        at += 1;
    }
    Ok(rest)
}

/// The first argument and the others.
#[tactic(auto, using(crate::proofs::Listed::first_is, crate::proofs::Listed::first_unset, crate::proofs::Listed::first_missing))]
pub(crate) fn first_of(alloc: Global, args: &Args) -> Result<Option<(Value, Args)>, NoMemory>
    ensures { IfOk result (λ found. found ≡ first_of args.now) }
{
    match args.get(0) {
        Some(Some(this)) => {
            let this = this.copy(alloc)?;
            Ok(Some((this, behind_first(alloc, args)?)))
        }
        _ => Ok(None),
    }
}
