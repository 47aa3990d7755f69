//! One instruction of a frame: an arm for each family.

ghost use Rattle.std.specs.Prelude.{◌≡◌};
ghost use Rattle.vm_state.specs.Local.{acted, instructed};

use crate::arithmetic::{
    compare_longs, int_divide, int_negate, ints, long_divide, long_negate, long_shift, longs,
    narrow, widen,
};
use crate::calls::invoke;
use crate::classes::{check_cast, constant, instance_of};
use crate::ends::{give, leave, throw};
use crate::jumps::{go, if_ints, if_null, if_same, if_zero};
use crate::locals::{increment, load, store};
use crate::moves::{dup, pop, swap};
use crate::pushes::push;
use cf_form::Instr;
use cf_link::Linked;
use vm_state::{Action, Effect, Frame, StuckKind, Value, action_of, as_index, instr_at, ref_at};

/// What an instruction comes to.
fn act(k: &Linked, f: &Frame, i: Instr, action: Action) -> Effect
    ensures { result ≡ (acted k.now f.now i action).effect }
{
    match action {
        Action::Nop => Effect::Done,
        Action::PushNull => push(f, Value::Null),
        Action::PushInt(n) => push(f, Value::Int(n)),
        Action::PushLong(n) => push(f, Value::Long(n)),
        Action::PushOperand => push(f, Value::Int(i.a)),
        Action::PushConstant => constant(f, ref_at(k, f.class, i.a)),
        Action::Load(kind) => match as_index(i.a) {
            None => Effect::Stuck(StuckKind::LocalOut),
            Some(n) => load(f, kind, n),
        },
        Action::LoadAt(kind, n) => load(f, kind, n),
        Action::Store(kind) => match as_index(i.a) {
            None => Effect::Stuck(StuckKind::LocalOut),
            Some(n) => store(f, kind, n),
        },
        Action::StoreAt(kind, n) => store(f, kind, n),
        Action::Pop(units) => pop(f, units),
        Action::Dup(units, under) => dup(f, units, under),
        Action::Swap => swap(f),
        Action::Ints(op) => ints(f, op),
        Action::Longs(op) => longs(f, op),
        Action::LongShift(op) => long_shift(f, op),
        Action::IntDivide(division) => int_divide(f, division),
        Action::LongDivide(division) => long_divide(f, division),
        Action::IntNegate => int_negate(f),
        Action::LongNegate => long_negate(f),
        Action::Increment => match as_index(i.a) {
            None => Effect::Stuck(StuckKind::LocalOut),
            Some(n) => increment(f, n, i.b),
        },
        Action::IntToLong => widen(f),
        Action::LongToInt => narrow(f),
        Action::CompareLongs => compare_longs(f),
        Action::IfZero(comparison) => if_zero(f, comparison, i.a),
        Action::IfInts(comparison) => if_ints(f, comparison, i.a),
        Action::IfSame(wanted) => if_same(f, wanted, i.a),
        Action::IfNull(wanted) => if_null(f, wanted, i.a),
        Action::Goto => go(f, 0, i.a),
        Action::Give(kind) => give(k, f, kind),
        Action::Leave => leave(k, f),
        Action::AtHeap(_) => Effect::AtHeap,
        Action::Invoke(how) => invoke(k, f, how, i.a),
        Action::Throw => throw(k, f),
        Action::CheckCast => check_cast(k, f, i.a),
        Action::InstanceOf => instance_of(k, f, i.a),
        Action::Wide => Effect::Stuck(StuckKind::PcOut),
    }
}

/// What the next instruction of a frame comes to, beside the frame after it.
pub fn effect_of(k: &Linked, f: &Frame) -> Effect
    ensures { result ≡ (instructed k.now f.now).effect }
{
    match instr_at(k, f) {
        None => Effect::Stuck(StuckKind::PcOut),
        Some(i) => match action_of(i.op) {
            None => Effect::Stuck(StuckKind::PcOut),
            Some(action) => act(k, f, i, action),
        },
    }
}
