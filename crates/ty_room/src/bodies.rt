//! Whether bodies are light enough.

ghost use Rattle.std.specs.Prelude.{◌≡◌, ◌↔◌, ◌≤◌, ◌-◌, ◌+◌, IsTrue, sum_by, if◌then◌else◌};
ghost use Rattle.std.specs.List.{All};
ghost use Rattle.ty_room.specs.Capped.{IsSize, capped};
ghost use Rattle.ty_room.specs.Sizing.{expr_size};
ghost use Rattle.ty_room.specs.Room.{MOST_WEIGHT, OBJECT_WEIGHT, body_weight, superclass_size, constructor_weight, CellHasRoom, MethodHasRoom};

use crate::ahead::Ahead;
use crate::capping::{plus, times, within};
use crate::class_numbers::{
    MIXIN_WEIGHT, MOST_WEIGHT, OBJECT_WEIGHT, PARAMETER_WEIGHT, RETURN_WEIGHT,
};
use crate::combining::node_size;
use crate::numbers::making;
use crate::size::Size;
use crate::sizing::{all_exprs, expr_size};
use ty_prog::{Cell, Class, Expr, Method};

// The weight of a body.
fn body_weight(ahead: Ahead, given: usize, locals: u32, body: &Expr) -> u32
    ensures { result ≡ capped (body_weight ahead given locals body.now) }
{
    plus(
        plus(expr_size(ahead, body).value, RETURN_WEIGHT),
        past(locals, given),
    )
}

// How many locals there are past the first ones.
fn past(locals: u32, given: usize) -> u32
    ensures { result ≡ capped (locals - given) }
{
    if given < locals as usize {
        locals - given as u32
    } else {
        0
    }
}

// The call of the superclass constructor.
fn superclass_size(ahead: Ahead, args: &[Expr]) -> Size
    ensures { IsSize result (superclass_size ahead args.now) }
{
    node_size(making(4, 0, 0), all_exprs(ahead, args))
}

// What the statements of a template take, their values dropped.
fn statements_weight(ahead: Ahead, body: &[Expr]) -> u32
    ensures { result ≡ capped (sum_by (λ e. (expr_size ahead e).value + 1) body.now) }
{
    let mut so_far = 0;
    for e in body {
        let bytes = plus(expr_size(ahead, e).value, 1);
        so_far = plus(so_far, bytes);
    }
    so_far
}

// What stores the reference of an object, before the first lowering.
fn object_weight(ahead: Ahead) -> u32
    ensures { result ≡ capped (if ahead.objects then OBJECT_WEIGHT else 0) }
{
    if ahead.objects { OBJECT_WEIGHT } else { 0 }
}

// The weight of a constructor.
fn constructor_weight(ahead: Ahead, class: &Class) -> u32
    ensures { result ≡ capped (constructor_weight ahead class.now) }
{
    let superclass = superclass_size(ahead, class.super_args.as_slice()).value;
    let statements = statements_weight(ahead, class.body.as_slice());
    let params = times(PARAMETER_WEIGHT, class.params.len());
    let mixins = times(MIXIN_WEIGHT, class.mixins.len());
    let object = object_weight(ahead);
    let stages = plus(plus(plus(superclass, statements), params), mixins);
    plus(
        plus(plus(stages, object), RETURN_WEIGHT),
        past(class.locals, class.params.len()),
    )
}

/// Whether a constructor has room.
pub(crate) fn constructor_has_room(ahead: Ahead, class: &Class) -> bool
    ensures { IsTrue result ↔ (constructor_weight ahead class.now ≤ MOST_WEIGHT) }
{
    within(constructor_weight(ahead, class), MOST_WEIGHT)
}

/// Whether all initialisers have room.
pub(crate) fn cells_have_room(ahead: Ahead, cells: &[Cell]) -> bool
    ensures { IsTrue result ↔ All (CellHasRoom ahead) cells.now }
{
    cells.iter().all(|cell| cell_has_room(ahead, cell))
}

// Whether the initialiser of a lazy member is light enough.
#[tactic(auto, unfolding(crate::specs::Room::CellHasRoom))]
fn cell_has_room(ahead: Ahead, cell: &Cell) -> bool
    ensures { IsTrue result ↔ CellHasRoom ahead cell.now }
{
    within(body_weight(ahead, 0, cell.locals, &cell.init), MOST_WEIGHT)
}

/// Whether all methods have room.
pub(crate) fn methods_have_room(ahead: Ahead, methods: &[Method]) -> bool
    ensures { IsTrue result ↔ All (MethodHasRoom ahead) methods.now }
{
    methods.iter().all(|method| method_has_room(ahead, method))
}

// Whether the body of a method is, if it has one.
fn method_has_room(ahead: Ahead, method: &Method) -> bool
    ensures { IsTrue result ↔ MethodHasRoom ahead method.now }
{
    match &method.body {
        Some(body) => within(
            body_weight(ahead, method.params.len(), method.locals, body),
            MOST_WEIGHT,
        ),
        None => true,
    }
}
