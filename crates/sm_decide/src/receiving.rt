//! The moves of nodes that get the values of their children, by their forms.

ghost use Rattle.std.specs.Prelude.{◌≡◌, ◌+◌, ◌<◌, suc, take, map, length, IfOk, Some, None, option_map};
ghost use Rattle.ty_prog.specs.Shape.{shape, handler_form, to_one};
ghost use Rattle.ty_prog.specs.Tree.{ExprTree};
ghost use Rattle.sm_rule.specs.Values.{computed};
ghost use Rattle.sm_decide.specs.Forms.{shown_text, one_if};
ghost use Rattle.ty_prog.specs.declared.catch.Catch.TheOpen.{Expr-F};
ghost use Rattle.sm_rule.specs.Moves.{kept, expr_kept, try_kept, handler_len, if_received, while_received, written, compared, exchanged, thrown, unshelved, try_received, match_received, text_received, received, arguments, next_or, operand_or, case_received, constructor_received, publishes, sets_none};
ghost use Rattle.sm_rule.specs.declared.moves.Move.TheVariants as move;
ghost use Rattle.sm_rule.specs.declared.act.Act.TheVariants as act;
ghost use Rattle.sm_state.specs.declared.value.Value.TheVariants as value;

use crate::computing::{compute, null_pointer};
use crate::keeping::{before_super, handler_len, is_super_arg};
use crate::operands::{arguments, has_next, keep, next};
use crate::texts::plain;
use sl_base::{Name, NoMemory};
use sm_rule::{Act, Move};
use sm_state::{Stack, Value};
use sqlite_items::{Boxed, Items};
use std::alloc::Global;
use ty_prog::{Case, Catch, Class, Expr, Kind, PrimOp, Tested, Ty};

// How many expressions there are.
fn count(args: &Items<Expr>) -> usize
    ensures { result ≡ length (map to_one args.now) }
{
    args.len()
}

// A conditional: the condition, then a branch.
fn receive_if(alloc: Global, child: u32, v: &Value) -> Result<Move, NoMemory>
    ensures { IfOk result (λ m. m ≡ if_received child v.now) }
{
    if child > 0 {
        return Ok(Move::End(v.copy(alloc)?));
    }
    match v {
        Value::Bool(true) => Ok(Move::Turn(1)),
        Value::Bool(false) => Ok(Move::Turn(2)),
        _ => Ok(Move::Stuck),
    }
}

// A loop: the condition, then the body, and again.
fn receive_while(child: u32, v: &Value) -> Result<Move, NoMemory>
    ensures { IfOk result (λ m. m ≡ while_received child v.now) }
{
    if child > 0 {
        return Ok(Move::Turn(0));
    }
    match v {
        Value::Bool(true) => Ok(Move::Turn(1)),
        Value::Bool(false) => Ok(Move::End(Value::Unit)),
        _ => Ok(Move::Stuck),
    }
}

// A block: the next statement, or the value of the last one.
fn receive_block(alloc: Global, es: &Items<Expr>, child: u32, v: &Value) -> Result<Move, NoMemory>
    ensures { IfOk result (λ m. m ≡ next_or (length (map to_one es.now)) child (move.Turn (child + 1)) (move.End v.now)) }
{
    if has_next(count(es), child) {
        Ok(Move::Turn(next(child)?))
    } else {
        Ok(Move::End(v.copy(alloc)?))
    }
}

// A write of a field: the object, then the value.
fn receive_put(
    alloc: Global,
    class: u32,
    field: u32,
    child: u32,
    v: &Value,
    operands: &Stack<Value>,
) -> Result<Move, NoMemory>
    ensures { IfOk result (λ m. m ≡ written class field child v.now (take child operands.now)) }
{
    if child == 0 {
        return keep(alloc, 0, v);
    }
    match operands.top() {
        Some(of) => Ok(Move::Do(Act::Write {
            of: of.copy(alloc)?,
            class,
            field,
            new: v.copy(alloc)?,
        })),
        None => Ok(Move::Stuck),
    }
}

// `==`: one side, then the other.
fn receive_equal(
    alloc: Global,
    child: u32,
    v: &Value,
    operands: &Stack<Value>,
) -> Result<Move, NoMemory>
    ensures { IfOk result (λ m. m ≡ compared child v.now (take child operands.now)) }
{
    if child == 0 {
        return keep(alloc, 0, v);
    }
    match operands.top() {
        Some(one) => Ok(Move::Do(Act::Compare {
            one: one.copy(alloc)?,
            other: v.copy(alloc)?,
        })),
        None => Ok(Move::Stuck),
    }
}

// Three children: the object, the old value, the new one.
fn receive_cas(
    alloc: Global,
    class: u32,
    field: u32,
    child: u32,
    v: &Value,
    operands: &Stack<Value>,
) -> Result<Move, NoMemory>
    ensures { IfOk result (λ m. m ≡ exchanged class field child v.now (take child operands.now)) }
{
    if child < 2 {
        return keep(alloc, child, v);
    }
    match (operands.top(), operands.get(1)) {
        (Some(old), Some(of)) => Ok(Move::Do(Act::Exchange {
            of: of.copy(alloc)?,
            class,
            field,
            old: old.copy(alloc)?,
            new: v.copy(alloc)?,
        })),
        _ => Ok(Move::Stuck),
    }
}

// A call: the object, then each argument.
fn receive_call(
    alloc: Global,
    class: u32,
    method: u32,
    args: &Items<Expr>,
    child: u32,
    v: &Value,
    operands: &Stack<Value>,
) -> Result<Move, NoMemory>
    ensures { IfOk result (λ m. m ≡ operand_or (suc (length (map to_one args.now))) child v.now (move.Do (act.Call class method (arguments v.now (take child operands.now))))) }
{
    if (child as usize) < count(args) {
        return keep(alloc, child, v);
    }
    Ok(Move::Do(Act::Call {
        class,
        method,
        args: arguments(alloc, operands, child as usize, v)?,
    }))
}

// A new object: each argument of its constructor.
fn receive_new(
    alloc: Global,
    class: u32,
    args: &Items<Expr>,
    child: u32,
    v: &Value,
    operands: &Stack<Value>,
) -> Result<Move, NoMemory>
    ensures { IfOk result (λ m. m ≡ operand_or (length (map to_one args.now)) child v.now (move.Do (act.Construct class (arguments v.now (take (expr_kept (Expr-F.New class (map to_one args.now)) child) operands.now))))) }
{
    if has_next(count(args), child) {
        return keep(alloc, child, v);
    }
    Ok(Move::Do(Act::Construct {
        class,
        args: arguments(alloc, operands, new_kept(class, args, child), v)?,
    }))
}

// A call by `super`: each argument.
fn receive_super(
    alloc: Global,
    this: &Value,
    after: u32,
    name: &Name,
    args: &Items<Expr>,
    child: u32,
    v: &Value,
    operands: &Stack<Value>,
) -> Result<Move, NoMemory>
    ensures { IfOk result (λ m. m ≡ operand_or (length (map to_one args.now)) child v.now (move.Do (act.CallSuper after name.now this.now (arguments v.now (take child operands.now))))) }
{
    if has_next(count(args), child) {
        return keep(alloc, child, v);
    }
    Ok(Move::Do(Act::CallSuper {
        after,
        name: name.copy(alloc)?,
        this: this.copy(alloc)?,
        args: arguments(alloc, operands, child as usize, v)?,
    }))
}

// A call of a static method, or of this very one: each argument.
fn receive_static(
    alloc: Global,
    class: u32,
    method: u32,
    args: &Items<Expr>,
    child: u32,
    v: &Value,
    operands: &Stack<Value>,
) -> Result<Move, NoMemory>
    ensures { IfOk result (λ m. m ≡ operand_or (length (map to_one args.now)) child v.now (move.Do (act.CallDirectly class method (arguments v.now (take child operands.now))))) }
{
    if has_next(count(args), child) {
        return keep(alloc, child, v);
    }
    Ok(Move::Do(Act::CallDirectly {
        class,
        method,
        args: arguments(alloc, operands, child as usize, v)?,
    }))
}

// An operator on its last operand and the one before it, if there is one.
fn compute_two(
    alloc: Global,
    op: PrimOp,
    v: &Value,
    operands: &Stack<Value>,
) -> Result<Move, NoMemory>
    ensures { IfOk result (λ m. m ≡ computed op v.now (take 1 operands.now)) }
{
    compute(alloc, op, operands.get(0), v)
}

// An operator on its last operand and more than one before it.
fn compute_many(
    alloc: Global,
    op: PrimOp,
    child: u32,
    v: &Value,
    operands: &Stack<Value>,
) -> Result<Move, NoMemory>
    requires { 1 < child }
    ensures { IfOk result (λ m. m ≡ computed op v.now (take child operands.now)) }
{
    match operands.get(1) {
        Some(_) => Ok(Move::Stuck),
        None => compute_two(alloc, op, v, operands),
    }
}

// An operator on all its operands.
fn compute_all(
    alloc: Global,
    op: PrimOp,
    child: u32,
    v: &Value,
    operands: &Stack<Value>,
) -> Result<Move, NoMemory>
    ensures { IfOk result (λ m. m ≡ computed op v.now (take child operands.now)) }
{
    match child {
        0 => compute(alloc, op, None, v),
        1 => compute_two(alloc, op, v, operands),
        _ => compute_many(alloc, op, child, v, operands),
    }
}

// An operator: each operand.
fn receive_prim(
    alloc: Global,
    op: PrimOp,
    args: &Items<Expr>,
    child: u32,
    v: &Value,
    operands: &Stack<Value>,
) -> Result<Move, NoMemory>
    ensures { IfOk result (λ m. m ≡ operand_or (length (map to_one args.now)) child v.now (computed op v.now (take child operands.now))) }
{
    if has_next(count(args), child) {
        return keep(alloc, child, v);
    }
    compute_all(alloc, op, child, v, operands)
}

// The text of what is shown: null is `null`.
fn shown_text(alloc: Global, v: &Value) -> Result<Option<Name>, NoMemory>
    ensures { IfOk result (λ text. shown_text v.now ≡ text) }
{
    match v {
        Value::Text(t) => Ok(Some(t.copy(alloc)?)),
        Value::Null => Ok(Some(plain(alloc, "null")?)),
        _ => Ok(None),
    }
}

// The text of a value is asked for.
fn ask_text(alloc: Global, v: &Value) -> Result<Move, NoMemory>
    ensures { IfOk result (λ m. m ≡ move.Again None 1 (act.TextOf v.now)) }
{
    Ok(Move::Again {
        own: None,
        child: 1,
        act: Act::TextOf(v.copy(alloc)?),
    })
}

// The text of a value: the value, then its text.
fn receive_text(alloc: Global, child: u32, v: &Value) -> Result<Move, NoMemory>
    ensures { IfOk result (λ m. m ≡ text_received child (λ t. move.End (value.Text t)) v.now) }
{
    if child == 0 {
        return ask_text(alloc, v);
    }
    match shown_text(alloc, v)? {
        Some(t) => Ok(Move::End(Value::Text(t))),
        None => Ok(Move::Stuck),
    }
}

// A line: the value, then its text.
fn receive_println(alloc: Global, child: u32, v: &Value) -> Result<Move, NoMemory>
    ensures { IfOk result (λ m. m ≡ text_received child (λ t. move.Do (act.Print t)) v.now) }
{
    if child == 0 {
        return ask_text(alloc, v);
    }
    match shown_text(alloc, v)? {
        Some(t) => Ok(Move::Do(Act::Print(t))),
        None => Ok(Move::Stuck),
    }
}

// A `throw`.
fn receive_throw(v: &Value) -> Result<Move, NoMemory>
    ensures { IfOk result (λ m. m ≡ thrown v.now) }
{
    match v {
        Value::Ref(at) => Ok(Move::Raise(Value::Ref(*at))),
        Value::Null => Ok(null_pointer()),
        _ => Ok(Move::Stuck),
    }
}

// Behind a `finally` the exception goes on, or the value is given.
fn unshelve(alloc: Global, operands: &Stack<Value>) -> Result<Move, NoMemory>
    ensures { IfOk result (λ m. m ≡ unshelved (take 2 operands.now)) }
{
    match (operands.top(), operands.get(1)) {
        (Some(x), Some(Value::Bool(true))) => Ok(Move::Raise(x.copy(alloc)?)),
        (Some(v), Some(Value::Bool(false))) => Ok(Move::End(v.copy(alloc)?)),
        _ => Ok(Move::Stuck),
    }
}

// The number of the `finally`, where there is room for it.
pub(crate) fn last_at(handler: &Option<Catch>) -> Result<u32, NoMemory>
    ensures { IfOk result (λ n. n ≡ 1 + handler_len (option_map handler_form handler.now)) }
{
    let count = handler_len(handler);
    if count < u32::MAX as usize {
        Ok(count as u32 + 1)
    } else {
        Err(NoMemory)
    }
}

// A `try`: its body or a handler is done, or its `finally`.
fn receive_try(
    alloc: Global,
    child: u32,
    v: &Value,
    operands: &Stack<Value>,
    handler: &Option<Catch>,
    last: &Option<Boxed<Expr>>,
) -> Result<Move, NoMemory>
    ensures { IfOk result (λ m. m ≡ try_received child v.now (take (try_kept (option_map handler_form handler.now) child) operands.now)
        (1 + handler_len (option_map handler_form handler.now)) (option_map to_one last.now)) }
{
    if last.is_none() {
        return Ok(Move::End(v.copy(alloc)?));
    }
    let at = last_at(handler)?;
    if child == at {
        return unshelve(alloc, operands);
    }
    Ok(Move::Shelve {
        child: at,
        raised: false,
        value: v.copy(alloc)?,
    })
}

// A match: the value, then the body of a case.
fn receive_match(
    alloc: Global,
    child: u32,
    v: &Value,
    cases: &Items<Case>,
) -> Result<Move, NoMemory>
    ensures { IfOk result (λ m. m ≡ match_received child v.now (map to_one cases.now)) }
{
    if child > 0 {
        return Ok(Move::End(v.copy(alloc)?));
    }
    if cases.len() == 0 {
        return Ok(Move::Do(Act::Unmatched(v.copy(alloc)?)));
    }
    keep(alloc, 0, v)
}

// A read of a lazy member.
fn lazy_get(alloc: Global, class: u32, cell: u32, v: &Value) -> Result<Move, NoMemory>
    ensures { IfOk result (λ m. m ≡ move.Do (act.ReadCell v.now class cell)) }
{
    Ok(Move::Do(Act::ReadCell {
        of: v.copy(alloc)?,
        class,
        cell,
    }))
}

// A read of a field.
fn get(alloc: Global, class: u32, field: u32, v: &Value) -> Result<Move, NoMemory>
    ensures { IfOk result (λ m. m ≡ move.Do (act.Read v.now class field)) }
{
    Ok(Move::Do(Act::Read {
        of: v.copy(alloc)?,
        class,
        field,
    }))
}

// A local gets a value.
fn store(alloc: Global, local: u32, v: &Value) -> Result<Move, NoMemory>
    ensures { IfOk result (λ m. m ≡ move.Store local v.now value.Unit) }
{
    Ok(Move::Store {
        local,
        value: v.copy(alloc)?,
        gives: Value::Unit,
    })
}

// A conversion.
fn convert(alloc: Global, to: Ty, v: &Value) -> Result<Move, NoMemory>
    ensures { IfOk result (λ m. m ≡ move.Do (act.Convert to v.now)) }
{
    Ok(Move::Do(Act::Convert {
        to,
        of: v.copy(alloc)?,
    }))
}

// A thread is started.
fn start(alloc: Global, v: &Value) -> Result<Move, NoMemory>
    ensures { IfOk result (λ m. m ≡ move.Do (act.Start v.now)) }
{
    Ok(Move::Do(Act::Start(v.copy(alloc)?)))
}

// A test.
fn test_value(alloc: Global, v: &Value, test: Tested) -> Result<Move, NoMemory>
    ensures { IfOk result (λ m. m ≡ move.Do (act.Test v.now test)) }
{
    Ok(Move::Do(Act::Test {
        of: v.copy(alloc)?,
        test,
    }))
}

// A new latch.
fn make_latch(alloc: Global, v: &Value) -> Result<Move, NoMemory>
    ensures { IfOk result (λ m. m ≡ move.Do (act.MakeLatch v.now)) }
{
    Ok(Move::Do(Act::MakeLatch(v.copy(alloc)?)))
}

// Whether this thread owns a control value.
fn is_mine(alloc: Global, v: &Value) -> Result<Move, NoMemory>
    ensures { IfOk result (λ m. m ≡ move.Do (act.IsMine v.now)) }
{
    Ok(Move::Do(Act::IsMine(v.copy(alloc)?)))
}

// A latch is awaited.
fn await_latch(alloc: Global, v: &Value) -> Result<Move, NoMemory>
    ensures { IfOk result (λ m. m ≡ move.Do (act.Await v.now)) }
{
    Ok(Move::Do(Act::Await(v.copy(alloc)?)))
}

// A latch is opened.
fn count_down(alloc: Global, v: &Value) -> Result<Move, NoMemory>
    ensures { IfOk result (λ m. m ≡ move.Do (act.CountDown v.now)) }
{
    Ok(Move::Do(Act::CountDown(v.copy(alloc)?)))
}

// The reference of an object definition is set.
fn set_module(alloc: Global, class: u32, v: &Value) -> Result<Move, NoMemory>
    ensures { IfOk result (λ m. m ≡ move.Do (act.SetModule class v.now)) }
{
    Ok(Move::Do(Act::SetModule {
        class,
        of: v.copy(alloc)?,
    }))
}

// How many operands the construction of an object keeps.
fn new_kept(class: u32, args: &Items<Expr>, child: u32) -> usize
    ensures { result ≡ expr_kept (Expr-F.New class (map to_one args.now)) child }
{
    if args.len() == 0 {
        0
    } else {
        child as usize + 1
    }
}

/// The move of an expression that gets the value of a child.
pub(crate) fn receive_expr(
    alloc: Global,
    this: &Value,
    child: u32,
    v: &Value,
    operands: &Stack<Value>,
    e: &Expr,
) -> Result<Move, NoMemory>
    ensures { IfOk result (λ m. m ≡ received this.now child v.now (take (kept (shape (ExprTree e.now)) child) operands.now) (shape (ExprTree e.now))) }
{
    match e {
        Expr::SetLocal(local, _) => store(alloc, *local, v),
        Expr::Get {
            of: _,
            class,
            field,
        } => get(alloc, *class, *field, v),
        Expr::Put {
            of: _,
            class,
            field,
            ..
        } => receive_put(alloc, *class, *field, child, v, operands),
        Expr::Call {
            of: _,
            class,
            method,
            args,
        } => receive_call(alloc, *class, *method, args, child, v, operands),
        Expr::Prim { op, args } => receive_prim(alloc, *op, args, child, v, operands),
        Expr::Convert { to, of: _ } => convert(alloc, *to, v),
        Expr::Equal(..) => receive_equal(alloc, child, v, operands),
        Expr::TextOf(_) => receive_text(alloc, child, v),
        Expr::Println(_) => receive_println(alloc, child, v),
        Expr::If(..) => receive_if(alloc, child, v),
        Expr::While(..) => receive_while(child, v),
        Expr::Block(es) => receive_block(alloc, es, child, v),
        Expr::Try {
            body: _,
            handler,
            last,
        } => receive_try(alloc, child, v, operands, handler, last),
        Expr::Throw(_) => receive_throw(v),
        Expr::Start(_) => start(alloc, v),
        Expr::Match { of: _, cases } => receive_match(alloc, child, v, cases),
        Expr::LazyGet { of: _, class, cell } => lazy_get(alloc, *class, *cell, v),
        Expr::SuperCall { after, name, args } => receive_super(
            alloc, this, *after, name, args, child, v, operands,
        ),
        Expr::Test { of: _, test } => test_value(alloc, v, *test),
        Expr::Cas {
            of: _,
            class,
            field,
            ..
        } => receive_cas(alloc, *class, *field, child, v, operands),
        Expr::NewLatch(_) => make_latch(alloc, v),
        Expr::OwnedHere(_) => is_mine(alloc, v),
        Expr::Await(_) => await_latch(alloc, v),
        Expr::CountDown(_) => count_down(alloc, v),
        Expr::StaticCall {
            class,
            method,
            args,
        } => receive_static(alloc, *class, *method, args, child, v, operands),
        Expr::SetModule(class, _) => set_module(alloc, *class, v),
        Expr::New { class, args } => receive_new(alloc, *class, args, child, v, operands),
        _ => Ok(Move::Stuck),
    }
}

// A case: its pattern, its guard where it has one, its body.
pub(crate) fn receive_case(
    alloc: Global,
    child: u32,
    v: &Value,
    guarded: bool,
) -> Result<Move, NoMemory>
    ensures { IfOk result (λ m. m ≡ case_received child v.now (one_if guarded)) }
{
    let tests = child == 0 || (child == 1 && guarded);
    if !tests {
        return Ok(Move::End(v.copy(alloc)?));
    }
    match v {
        Value::Bool(true) => Ok(Move::Fresh(child + 1)),
        Value::Bool(false) => Ok(Move::Pass),
        _ => Ok(Move::Stuck),
    }
}

// Whether a body doesn't begin by setting the object's reference.
fn sets_none(body: &[Expr]) -> bool
    ensures { result ≡ sets_none body.now }
{
    match body.first() {
        None => true,
        Some(e) => !matches!(e, Expr::SetModule(..)),
    }
}

// Whether the object's reference is set when this stage is done.
fn publishes(class: &Class, child: usize) -> bool
    ensures { result ≡ publishes class.now class.now.kind child }
{
    match class.kind {
        Kind::Object => child as u128 == before_super(class) && sets_none(class.body.as_slice()),
        _ => false,
    }
}

// A constructor: the next stage begins, or an argument is kept, or the reference is set.
pub(crate) fn receive_stage(
    alloc: Global,
    class: &Class,
    child: u32,
    v: &Value,
) -> Result<Move, NoMemory>
    ensures { IfOk result (λ m. m ≡ constructor_received child v.now class.now) }
{
    if is_super_arg(class, child as usize) {
        return keep(alloc, child, v);
    }
    let behind = next(child)?;
    if publishes(class, child as usize) {
        Ok(Move::Publish(behind))
    } else {
        Ok(Move::Advance(behind))
    }
}
