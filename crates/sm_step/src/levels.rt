//! The levels and operands of a context, changed where they stand.

ghost use Rattle.std.specs.Prelude.{◌≡◌, ◌+◌, ◌<◌, ◌∷◌, Some, length, drop, slice_get, slice_set, OnOk, OnErr, option_map};
ghost use Rattle.ty_prog.specs.Node.{tree_of};
ghost use Rattle.ty_prog.specs.Tree.{children};
ghost use Rattle.sm_step.specs.Contexts.{node_up, climbed, turned, rested, IsIn, without, with_local};

use crate::site::{Climb, Rest};
use sl_base::NoMemory;
use sm_state::{Context, Level, Sequence, Spot, Stack, Value};
use ty_prog::{Node, child};

/// A level is put on top.
pub fn put_level<'p>(
    levels: &mut Stack<Level<'p>>,
    node: Node<'p>,
    number: u32,
) -> Result<(), NoMemory>
    ensures ok { OnOk result (levels.new ≡ record { node = tree_of node.entry; child = number } ∷ levels.old) }
    ensures err { OnErr result (levels.new ≡ levels.old) }
{
    let level = Level {
        node: Spot::new(node),
        child: number,
    };
    match levels.push(level) {
        Ok(()) => Ok(()),
        Err(_) => Err(NoMemory),
    }
}

/// An operand is put on top.
pub fn put_operand(operands: &mut Stack<Value>, v: Value) -> Result<(), NoMemory>
    ensures ok { OnOk result (operands.new ≡ v ∷ operands.old) }
    ensures err { OnErr result (operands.new ≡ operands.old) }
{
    match operands.push(v) {
        Ok(()) => Ok(()),
        Err(_) => Err(NoMemory),
    }
}

/// Two operands are put on top, or none.
pub fn put_two(operands: &mut Stack<Value>, lower: Value, upper: Value) -> Result<(), NoMemory>
    ensures ok { OnOk result (operands.new ≡ upper ∷ lower ∷ operands.old) }
    ensures err { OnErr result (operands.new ≡ operands.old) }
{
    put_operand(operands, lower)?;
    match put_operand(operands, upper) {
        Ok(()) => Ok(()),
        Err(e) => {
            operands.take_off(1);
            Err(e)
        }
    }
}

/// The node of the level with this number.
pub fn node_at<'p>(c: &Context<'p>, at: usize) -> Node<'p>
    ensures { tree_of result ≡ node_up c.now (Some at) }
{
    match c.levels.get(at) {
        Some(level) => level.node.node(),
        None => c.node.node(),
    }
}

/// The child with this number of that node.
pub fn child_at<'p>(c: &Context<'p>, at: usize, number: u32) -> Option<Node<'p>>
    ensures { option_map tree_of result ≡ slice_get (children (node_up c.now (Some at))) number }
{
    child(node_at(c, at), number as usize)
}

// Takes off the levels up to the one with this number.
#[tactic(auto, using(crate::proofs::Dropping::drop_next))]
fn take_levels(levels: &mut Stack<Level<'_>>, at: usize)
    ensures { levels.new ≡ drop (at + 1) levels.old }
{
    levels.take_off(at);
    levels.take_off(1);
}

/// A context goes up.
pub fn go_up(c: &mut Context<'_>, way: Climb)
    ensures { c.new ≡ climbed way c.old }
{
    if let Some(at) = way.to {
        let node = node_at(c, at);
        c.node = Spot::new(node);
        take_levels(&mut c.levels, at);
    }
    c.operands.take_off(way.taken);
}

fn renumber(level: &mut Level<'_>, number: u32)
    ensures { level.new ≡ record { node = level.old.node; child = number } }
{
    level.child = number;
}

// The level with this number becomes the innermost one, and its child another.
#[tactic(auto, using(crate::proofs::Dropping::drop_next, crate::proofs::Dropping::get_drop))]
fn retop(c: &mut Context<'_>, at: usize, number: u32)
    requires { at < length c.old.levels }
    ensures { c.new ≡ record c.old { levels = record { node = node_up c.old (Some at); child = number } ∷ drop (at + 1) c.old.levels } }
{
    c.levels.take_off(at);
    renumber(c.levels.top_mut(), number);
}

/// The node `next`, which is the child with this number of the node of the level `at`, begins; the latest `new` operands
/// stay, and so many are dropped below them.
pub fn turn_to<'p>(
    c: &mut Context<'p>,
    at: usize,
    taken: usize,
    new: usize,
    number: u32,
    next: Node<'p>,
)
    requires { at < length c.old.levels }
    ensures { c.new ≡ turned at taken new number (tree_of next.entry) c.old }
{
    retop(c, at, number);
    c.node = Spot::new(next);
    c.operands.take_below(new, taken);
}

/// An act has given its value.
pub fn come_to_rest(c: &mut Context<'_>, how: Rest)
    requires { IsIn how c.old.levels }
    ensures { c.new ≡ rested how c.old }
{
    match how {
        Rest::Over(way) => go_up(c, way),
        Rest::Below {
            at,
            taken,
            new,
            child,
        } => {
            let node = node_at(c, at);
            turn_to(c, at, taken, new, child, node);
        }
    }
}

/// The operands that are new are dropped, and a context goes up.
pub fn go_up_without(c: &mut Context<'_>, new: usize, way: Climb)
    ensures { c.new ≡ climbed way (without new c.old) }
{
    c.operands.take_off(new);
    go_up(c, way);
}

fn set_local_in(locals: &mut Sequence<Option<Value>>, local: u32, v: Value)
    ensures { locals.new ≡ slice_set locals.old local (Some v) }
{
    locals.set(local as usize, Some(v));
}

/// A value goes into a local.
pub fn set_local(c: &mut Context<'_>, local: u32, v: Value)
    ensures { c.new ≡ with_local local v c.old }
{
    set_local_in(&mut c.locals, local, v);
}
