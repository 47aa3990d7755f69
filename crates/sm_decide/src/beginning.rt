//! The moves of nodes that begin, by their forms.

ghost use Rattle.std.specs.Prelude.{◌≡◌, [], ◌∷◌, Some, map, reverse, IfOk, slice_get, length, option_map};
ghost use Rattle.std.specs.Option.{option_copied};
ghost use Rattle.ty_prog.specs.Shape.{shape, to_one};
ghost use Rattle.ty_prog.specs.Tree.{ExprTree};
ghost use Rattle.ty_prog.specs.declared.stage.Stage.TheVariants as stage;
ghost use Rattle.sm_rule.specs.Moves.{set_local, first_or, lone, making, printing, begun, constructor_begun, parameter_begun, stage_begun, case_begun};
ghost use Rattle.sm_rule.specs.Step.{sight, child_number};
ghost use Rattle.sm_rule.specs.declared.moves.Move.TheVariants as move;
ghost use Rattle.sm_rule.specs.declared.act.Act.TheVariants as act;

use crate::operands::push_some;
use crate::texts::plain;
use sl_base::{Name, NoMemory};
use sm_rule::{Act, Args, Move};
use sm_state::{Context, Level, Sequence, Stack, Value};
use sqlite_items::Boxed;
use std::alloc::Global;
use ty_prog::{Expr, PrimOp, Stage};

// The value of a local, if it is set.
fn given_local(alloc: Global, v: Option<&Option<Value>>) -> Result<Move, NoMemory>
    ensures { IfOk result (λ m. m ≡ set_local (option_copied v.entry)) }
{
    match v {
        Some(Some(v)) => Ok(Move::End(v.copy(alloc)?)),
        _ => Ok(Move::Stuck),
    }
}

// An operator without operands.
fn lone(op: PrimOp) -> Move
    ensures { result ≡ lone op }
{
    match op {
        PrimOp::Evaluating => Move::Do(Act::Mine),
        PrimOp::NullValue => Move::End(Value::NullValue),
        _ => Move::Stuck,
    }
}

// The first operand begins, or where there is none, something else is done.
fn first_or(args: &[Expr], none: Move) -> Move
    ensures { result ≡ first_or (map to_one args.now) none }
{
    if args.len() == 0 { none } else { Move::Turn(0) }
}

// An object without arguments is made and constructed; else it is made first, and its arguments begin.
fn making(class: u32, args: &[Expr]) -> Move
    ensures { result ≡ making class (map to_one args.now) }
{
    if args.len() == 0 {
        Move::Again {
            own: None,
            child: 0,
            act: Act::Make(class),
        }
    } else {
        Move::Hold(class)
    }
}

// An empty line is printed, or the operand begins.
fn printing(alloc: Global, e: &Option<Boxed<Expr>>) -> Result<Move, NoMemory>
    ensures { IfOk result (λ m. m ≡ printing (option_map to_one e.now)) }
{
    match e {
        None => Ok(Move::Do(Act::Print(plain(alloc, "")?))),
        Some(_) => Ok(Move::Turn(0)),
    }
}

// A call by `super` without arguments.
fn super_alone(alloc: Global, this: &Value, after: u32, name: &Name) -> Result<Move, NoMemory>
    ensures { IfOk result (λ m. m ≡ move.Do (act.CallSuper after name.now this.now [])) }
{
    Ok(Move::Do(Act::CallSuper {
        after,
        name: name.copy(alloc)?,
        this: this.copy(alloc)?,
        args: Sequence::new(alloc),
    }))
}

// An expression by its form.
pub(crate) fn begin_expr(alloc: Global, c: &Context<'_>, e: &Expr) -> Result<Move, NoMemory>
    ensures { IfOk result (λ m. m ≡ begun (sight c.now) (shape (ExprTree e.now))) }
{
    match e {
        Expr::Int(n) => Ok(Move::End(Value::Int(*n))),
        Expr::Long(n) => Ok(Move::End(Value::Long(*n))),
        Expr::Bool(b) => Ok(Move::End(Value::Bool(*b))),
        Expr::Text(t) => Ok(Move::End(Value::Text(t.copy(alloc)?))),
        Expr::Null => Ok(Move::End(Value::Null)),
        Expr::Unit => Ok(Move::End(Value::Unit)),
        Expr::This => Ok(Move::End(c.this.copy(alloc)?)),
        Expr::Local(x) => given_local(alloc, c.locals.get(*x as usize)),
        Expr::Block(es) => Ok(first_or(es.as_slice(), Move::End(Value::Unit))),
        Expr::Prim { op, args } => Ok(first_or(args.as_slice(), lone(*op))),
        Expr::New { class, args } => Ok(making(*class, args.as_slice())),
        Expr::Println(e) => printing(alloc, e),
        Expr::SuperCall { after, name, args } => {
            let alone = super_alone(alloc, &c.this, *after, name)?;
            Ok(first_or(args.as_slice(), alone))
        }
        Expr::StaticCall {
            class,
            method,
            args,
        } => {
            let alone = Move::Do(Act::CallDirectly {
                class: *class,
                method: *method,
                args: Sequence::new(alloc),
            });
            Ok(first_or(args.as_slice(), alone))
        }
        Expr::ObjectGet(class) => Ok(Move::Do(Act::ReadModule(*class))),
        Expr::ModuleGet(class) => Ok(Move::Do(Act::ReadModule(*class))),
        _ => Ok(Move::Turn(0)),
    }
}

// An object definition's constructor makes its object; any other begins its first stage.
pub(crate) fn begin_constructor(this: &Value) -> Move
    ensures { result ≡ constructor_begun this.now }
{
    match this {
        Value::Null => Move::Embody,
        _ => Move::Advance(0),
    }
}

/// The number of a node below the node above.
pub(crate) fn child_number(levels: &Stack<Level<'_>>) -> u32
    ensures { result ≡ child_number levels.now }
{
    match levels.top() {
        Some(l) => l.child,
        None => 0,
    }
}

// A class parameter is stored into its field.
fn begin_parameter(alloc: Global, c: &Context<'_>, field: u32) -> Result<Move, NoMemory>
    ensures { IfOk result (λ m. m ≡ stage_begun (sight c.now) (stage.Parameter field)) }
{
    match c.locals.get(child_number(&c.levels) as usize) {
        Some(Some(v)) => Ok(Move::Do(Act::Write {
            of: c.this.copy(alloc)?,
            class: c.class,
            field,
            new: v.copy(alloc)?,
        })),
        _ => Ok(Move::Stuck),
    }
}

// The superclass constructor is called with the operands.
fn begin_superclass(alloc: Global, c: &Context<'_>) -> Result<Move, NoMemory>
    ensures { IfOk result (λ m. m ≡ stage_begun (sight c.now) stage.Superclass) }
{
    Ok(Move::Do(Act::ConstructAbove {
        class: c.class,
        this: c.this.copy(alloc)?,
        args: all_operands(alloc, &c.operands)?,
    }))
}

// All operands, from the earliest on.
fn all_operands(alloc: Global, operands: &Stack<Value>) -> Result<Args, NoMemory>
    ensures { IfOk result (λ made. made ≡ map Some (reverse operands.now)) }
{
    let mut made = Sequence::new(alloc);
    let mut left = operands.len();
    while left > 0 {
        left -= 1;
        push_some(alloc, &mut made, operands.get(left))?;
    }
    Ok(made)
}

// The statements of a trait are run on the object.
fn begin_mixin(alloc: Global, c: &Context<'_>, mixin: u32) -> Result<Move, NoMemory>
    ensures { IfOk result (λ m. m ≡ stage_begun (sight c.now) (stage.Mixin mixin)) }
{
    let mut args = Sequence::new(alloc);
    args.push(Some(c.this.copy(alloc)?))?;
    Ok(Move::Do(Act::Construct { class: mixin, args }))
}

// A stage of a constructor by its form.
pub(crate) fn begin_stage(alloc: Global, c: &Context<'_>, stage: Stage) -> Result<Move, NoMemory>
    ensures { IfOk result (λ m. m ≡ stage_begun (sight c.now) stage) }
{
    match stage {
        Stage::Parameter(field) => begin_parameter(alloc, c, field),
        Stage::Superclass => begin_superclass(alloc, c),
        Stage::Mixin(mixin) => begin_mixin(alloc, c, mixin),
    }
}

// A case: its pattern looks at the same value.
pub(crate) fn begin_case(alloc: Global, operands: &Stack<Value>) -> Result<Move, NoMemory>
    ensures { IfOk result (λ m. m ≡ case_begun operands.now) }
{
    match operands.top() {
        Some(v) => Ok(Move::Keep {
            child: 0,
            value: v.copy(alloc)?,
        }),
        None => Ok(Move::Stuck),
    }
}
