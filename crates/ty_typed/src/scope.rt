//! Where an expression stands.

use ty_prog::{Program, Ty};

/// Where an expression stands: in which program, in which class (None in a static method), with which types of locals.
#[derive(Clone, Copy)]
pub struct Scope<'a> {
    pub program: &'a Program,
    pub this: Option<u32>,
    pub locals: &'a [Ty],
}
