//! Where in a context a node moves.

/// How far a context goes up: to the end of the node of the level with this number, counted from the innermost, or not
/// at all; and how many operands it drops.
#[derive(Clone, Copy, Debug)]
pub struct Climb {
    pub to: Option<usize>,
    pub taken: usize,
}

/// The node that moves is that of the level `at`. The context goes up by `stand` where the node goes on or throws, and
/// to the end of the node, with `taken` operands less, where it ends.
#[derive(Clone, Copy, Debug)]
pub struct Site {
    pub stand: Climb,
    pub at: usize,
    pub taken: usize,
}

/// Where a node that did an act stands when the value is there: behind its end, or below itself, as its own child, with
/// its latest operands kept.
#[derive(Clone, Copy, Debug)]
pub enum Rest {
    Over(Climb),
    Below {
        at: usize,
        taken: usize,
        new: usize,
        child: u32,
    },
}
