//! All trees of a class.

ghost use Rattle.std.specs.Prelude.{map};
ghost use Rattle.ty_room.specs.Capped.{IsSize};
ghost use Rattle.ty_room.specs.Sizing.{together, expr_size};
ghost use Rattle.ty_room.specs.Room.{body_size, class_size};

use crate::ahead::Ahead;
use crate::combining::{beside, merged, nothing};
use crate::size::Size;
use crate::sizing::{all_exprs, expr_size};
use ty_prog::{Cell, Class, Expr, Method};

/// What all trees of a class take.
pub(crate) fn class_size(ahead: Ahead, class: &Class) -> Size
    ensures { IsSize result (class_size ahead class.now) }
{
    merged(
        merged(
            all_exprs(ahead, class.super_args.as_slice()),
            all_exprs(ahead, class.body.as_slice()),
        ),
        merged(
            all_cells(ahead, class.cells.as_slice()),
            all_methods(ahead, class.methods.as_slice()),
        ),
    )
}

// The sizes of the initialisers of lazy members together.
fn all_cells(ahead: Ahead, cells: &[Cell]) -> Size
    ensures { IsSize result (together (map (λ cell. expr_size ahead cell.init) cells.now)) }
{
    let mut so_far = nothing();
    for cell in cells {
        so_far = beside(so_far, expr_size(ahead, &cell.init));
    }
    so_far
}

// The sizes of the bodies of methods together.
fn all_methods(ahead: Ahead, methods: &[Method]) -> Size
    ensures { IsSize result (together (map (λ method. body_size ahead method.body) methods.now)) }
{
    let mut so_far = nothing();
    for method in methods {
        so_far = beside(so_far, body_size(ahead, &method.body));
    }
    so_far
}

fn body_size(ahead: Ahead, body: &Option<Expr>) -> Size
    ensures { IsSize result (body_size ahead body.now) }
{
    match body {
        None => nothing(),
        Some(body) => expr_size(ahead, body),
    }
}
