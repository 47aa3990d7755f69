//! The protocol's state.

ghost use Rattle.std.specs.Prelude.{◌≡◌, ◌<◌, ◌++◌, [], ◌∷◌, ◌-◌, ℕ, Option, true, false, length, slice_set, get_or, nat_lt, ◌^◌, max, IfOk, OnOk, OnErr};
ghost use Rattle.lz_proto.specs.Protocol.{Protocol, content, position, thread, is_open, named};
ghost use Rattle.lz_proto.specs.Kept.{IsKept};
ghost use Rattle.lz_proto.specs.Once.{first_inside};
ghost use Rattle.lz_proto.specs.Promises.{IsNew};
ghost use Rattle.lz_proto.specs.declared.pos.Pos.TheVariants as pos;

use crate::pos::Pos;
use crate::state::State;
use sl_base::NoMemory;
use std::alloc::Global;
use std::marker::Model;

/// Cells, latches and accessors. Contracts see their lists, and how many latches may still be made.
#[derive(Debug, Drop)]
pub struct Proto {
    cells: Vec<State>,
    opened: Vec<bool>,
    owner: Vec<u32>,
    at: Vec<Pos>,
    threads: Vec<u32>,
    spare: u32,
}

impl Model for Proto {
    ghost use Rattle.std.specs.Prelude.{◌≤◌, ◌+◌, ◌<◌, ◌^◌, length, vec_capacity};
    ghost use Rattle.lz_proto.specs.Protocol.{Protocol};
    ghost use Rattle.lz_proto.specs.Kept.{IsKept};

    ghost Value = { Protocol };

    ghost view = { λ p. record { cells = p.cells.items; opened = p.opened.items; owner = p.owner.items; at = p.at.items; threads = p.threads.items; spare = p.spare } };

    ghost invariant = { λ p. IsKept (record { cells = p.cells.items; opened = p.opened.items; owner = p.owner.items; at = p.at.items; threads = p.threads.items; spare = p.spare }) × (length p.at.items < 2 ^ 32) × (length p.opened.items + p.spare < 2 ^ 32) × (length p.opened.items + p.spare ≤ vec_capacity p.opened) × (length p.opened.items + p.spare ≤ vec_capacity p.owner) };
}

impl Proto {
    /// Cells that are empty, and an accessor for each of these threads, which hasn't begun.
    pub fn new(alloc: Global, cells: u32, threads: &[u32]) -> Result<Proto, NoMemory>
        ensures { IfOk result (λ p. IsNew cells threads.now p) }
    {
        if threads.len() > u32::MAX as usize {
            return Err(NoMemory);
        }
        Ok(Proto {
            cells: vec![in alloc; State::Empty; cells as usize]?,
            opened: Vec::new(alloc),
            owner: Vec::new(alloc),
            at: vec![in alloc; Pos::Idle; threads.len()]?,
            threads: threads.to_vec(alloc)?,
            spare: 0,
        })
    }

    /// Makes room for at least so many latches, or changes nothing.
    pub fn reserve(&mut self, latches: u32) -> Result<(), NoMemory>
        ensures ok { OnOk result (self.new ≡ record self.old { spare = max self.old.spare latches }) }
        ensures err { OnErr result (self.new ≡ self.old) }
    {
        if latches <= self.spare {
            return Ok(());
        }
        if latches as usize > u32::MAX as usize - self.opened.len() {
            return Err(NoMemory);
        }
        self.opened.reserve(latches as usize)?;
        self.owner.reserve(latches as usize)?;
        self.spare = latches;
        Ok(())
    }

    /// The first accessor that is inside a cell; their number where there is none.
    #[tactic(auto, using(crate::proofs::Finding::goes_on, crate::proofs::Finding::stops, crate::proofs::Finding::ends))]
    pub(crate) fn runner(&self, cell: u32) -> u32
        ensures { result ≡ first_inside cell self.now.at }
    {
        let mut who = 0;
        while (who as usize) < self.at.len() && !self.at[who as usize].is_inside(cell) {
            who += 1;
        }
        who
    }

    /// What every state keeps, and the bound on its room.
    pub(crate) fn kept(&self)
        ensures kept { IsKept self.now }
        ensures room { self.now.spare < 2 ^ 32 }
    {
        let _ = &self.spare;
    }

    /// How many cells there are.
    pub fn cells(&self) -> usize
        ensures { result ≡ length self.now.cells }
    {
        self.cells.len()
    }

    /// How many accessors there are.
    pub fn accessors(&self) -> usize
        ensures { result ≡ length self.now.at }
    {
        self.at.len()
    }

    /// How many latches were made.
    pub fn latches(&self) -> usize
        ensures { result ≡ length self.now.opened }
    {
        self.opened.len()
    }

    /// How many latches may still be made.
    pub fn spare(&self) -> u32
        ensures { result ≡ self.now.spare }
    {
        self.spare
    }

    /// Whether there is a cell with this number.
    pub(crate) fn has_cell(&self, cell: u32) -> bool
        ensures { result ≡ nat_lt cell (length self.now.cells) }
    {
        (cell as usize) < self.cells.len()
    }

    /// What a cell holds.
    pub fn cell(&self, cell: u32) -> State
        requires { cell < length self.now.cells }
        ensures { result ≡ content self.now cell }
    {
        self.cells[cell as usize]
    }

    /// Where an accessor stands.
    pub fn position(&self, who: u32) -> Pos
        requires { who < length self.now.at }
        ensures value { result ≡ position self.now who }
        ensures kept { IsKept self.now }
    {
        self.at[who as usize]
    }

    /// The thread of an accessor.
    pub fn thread(&self, who: u32) -> u32
        requires { who < length self.now.at }
        ensures { result ≡ thread self.now who }
    {
        self.threads[who as usize]
    }

    /// Whether a latch is open.
    pub fn is_open(&self, latch: u32) -> bool
        requires { latch < length self.now.opened }
        ensures { result ≡ is_open self.now latch }
    {
        self.opened[latch as usize]
    }

    /// The thread that a latch names.
    pub fn owner(&self, latch: u32) -> u32
        requires { latch < length self.now.opened }
        ensures { result ≡ named self.now latch }
    {
        self.owner[latch as usize]
    }

    /// An accessor goes on to a position.
    pub(crate) fn stand(&mut self, who: u32, next: Pos)
        requires there { who < length self.old.at }
        requires kept { IsKept (record self.old { at = slice_set self.old.at who next }) }
        ensures { self.new ≡ record self.old { at = slice_set self.old.at who next } }
    {
        self.at[who as usize] = next;
    }

    /// It gives a cell another content, and goes on.
    pub(crate) fn write(&mut self, who: u32, cell: u32, new: State, next: Pos)
        requires there { who < length self.old.at }
        requires cell { cell < length self.old.cells }
        requires kept { IsKept (record self.old { cells = slice_set self.old.cells cell new; at = slice_set self.old.at who next }) }
        ensures { self.new ≡ record self.old { cells = slice_set self.old.cells cell new; at = slice_set self.old.at who next } }
    {
        self.cells[cell as usize] = new;
        self.at[who as usize] = next;
    }

    /// It opens a latch, and goes on.
    pub(crate) fn open(&mut self, who: u32, latch: u32, next: Pos)
        requires there { who < length self.old.at }
        requires latch { latch < length self.old.opened }
        requires kept { IsKept (record self.old { opened = slice_set self.old.opened latch true; at = slice_set self.old.at who next }) }
        ensures { self.new ≡ record self.old { opened = slice_set self.old.opened latch true; at = slice_set self.old.at who next } }
    {
        self.opened[latch as usize] = true;
        self.at[who as usize] = next;
    }

    /// It makes a latch that names this thread, and goes on to install it.
    pub(crate) fn make(&mut self, who: u32, cell: u32, thread: u32)
        requires there { who < length self.old.at }
        requires room { 0 < self.old.spare }
        requires kept { IsKept (record self.old { opened = self.old.opened ++ false ∷ []; owner = self.old.owner ++ thread ∷ []; at = slice_set self.old.at who (pos.Install cell (length self.old.opened)); spare = self.old.spare - 1 }) }
        ensures { self.new ≡ record self.old { opened = self.old.opened ++ false ∷ []; owner = self.old.owner ++ thread ∷ []; at = slice_set self.old.at who (pos.Install cell (length self.old.opened)); spare = self.old.spare - 1 } }
    {
        let latch = self.opened.len() as u32;
        self.opened.push_reserved(false);
        self.owner.push_reserved(thread);
        self.at[who as usize] = Pos::Install(cell, latch);
        self.spare -= 1;
    }
}
