//! What a cell is to its readers.

ghost use Rattle.std.specs.Prelude.{◌≡◌, ◌<◌, length};
ghost use Rattle.lz_proto.specs.Once.{abstract_of, is_inside};

use crate::once::Once;
use crate::pos::Pos;
use crate::proto::Proto;
use crate::state::State;

impl Pos {
    /// Whether it has claimed this cell, and hasn't given it a result yet.
    pub(crate) fn is_inside(self, cell: u32) -> bool
        ensures { result ≡ is_inside cell self }
    {
        match self {
            Pos::Body(inside)
            | Pos::Store(inside, _)
            | Pos::Take(inside, _)
            | Pos::Swap(inside, _, _) => inside == cell,
            _ => false,
        }
    }
}

impl Proto {
    /// What a cell is to its readers.
    pub fn abstract_of(&self, cell: u32) -> Once
        requires { cell < length self.now.cells }
        ensures { result ≡ abstract_of self.now cell }
    {
        match self.cell(cell) {
            State::Empty => Once::Empty,
            State::Evaluating(_) | State::Waiting(_) => Once::Running(self.runner(cell)),
            State::Done(value) => Once::Done(value),
        }
    }
}
