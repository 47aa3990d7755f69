//! Latches and control values.

ghost use Rattle.std.specs.Prelude.{◌≡◌, IfOk};
ghost use Rattle.sm_rule.specs.Perform.{latch_made, is_mine, latch_awaited, latch_opened};

use crate::fields::{bad_cast, gives, on_null};
use crate::making::number;
use sl_base::NoMemory;
use sm_rule::{Answer, Edit};
use sm_state::{Heap, Value};

/// A new latch, which names the thread of the control value.
pub(crate) fn make_latch(h: &Heap, v: &Value) -> Result<Answer, NoMemory>
    ensures { IfOk result (λ a. a ≡ latch_made h.now v.now) }
{
    match v {
        Value::Evaluating(u) => {
            let at = number(h.latches.len())?;
            Ok(Answer::Gives {
                edit: Edit::AddLatch,
                value: Value::Latch { at, owner: *u },
            })
        }
        _ => Ok(bad_cast()),
    }
}

/// Whether a control value or a latch names this thread.
pub(crate) fn is_mine(t: u32, v: &Value) -> bool
    ensures { result ≡ is_mine t v.now }
{
    match v {
        Value::Evaluating(u) => *u == t,
        Value::Latch { owner, .. } => *owner == t,
        _ => false,
    }
}

/// A latch is awaited.
pub(crate) fn await_latch(h: &Heap, v: &Value) -> Answer
    ensures { result ≡ latch_awaited h.now v.now }
{
    match v {
        Value::Latch { at, .. } => match h.latches.get(*at as usize) {
            Some(true) => gives(Value::Unit),
            Some(false) => Answer::Waits,
            None => Answer::Wrong,
        },
        Value::Null => on_null(),
        _ => bad_cast(),
    }
}

/// A latch is opened.
pub(crate) fn open_latch(v: &Value) -> Answer
    ensures { result ≡ latch_opened v.now }
{
    match v {
        Value::Latch { at, .. } => Answer::Gives {
            edit: Edit::OpenLatch(*at),
            value: Value::Unit,
        },
        Value::Null => on_null(),
        _ => bad_cast(),
    }
}
