//! The table of what opcodes do, and its rows looked up.

ghost use Rattle.std.specs.Prelude.{◌≡◌};
ghost use Rattle.vm_state.specs.Actions.{action_among, action_of};

use crate::action::{Action, Comparison, Division, HeapAction, Invocation};
use crate::action_rows;
use cf_link::ValueKind;
use sl_num::IntOp;

/// An opcode and what it does.
#[derive(Clone, Copy)]
pub struct OpAction {
    pub op: u8,
    pub action: Action,
}

macro_rules! table {
    ([$($_argument:tt),*] $(($op:literal $($action:tt)*))*) => {
        [$(OpAction { op: $op, action: Action::$($action)* }),*]
    };
}

macro_rules! arms {
    ([$op:tt] $(($code:literal $($action:tt)*))*) => {
        match $op {
            $($code => Some(Action::$($action)*),)*
            _ => searched(&ACTIONS, $op),
        }
    };
}

/// What each opcode does, in rising order.
pub const ACTIONS: [OpAction; 118] = action_rows!(table,);

/// What this opcode does; None where no row has it.
#[tactic(auto, unfolding(crate::specs::Actions::action_of))]
#[inline(always)]
pub fn action_of(op: u8) -> Option<Action>
    ensures { result ≡ action_of op }
{
    action_rows!(arms, op)
}

/// What these rows say of this opcode, by going through them.
#[cold]
#[inline(never)]
fn searched(rows: &[OpAction], op: u8) -> Option<Action>
    ensures { result ≡ action_among rows.now op }
{
    for row in rows {
        if row.op == op {
            return Some(row.action);
        }
    }
    None
}
