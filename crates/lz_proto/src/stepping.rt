//! What comes of one act of an accessor.

ghost use Rattle.std.specs.Prelude.{◌≡◌, ◌<◌, ℕ, length, Option};
ghost use Rattle.lz_proto.specs.Protocol.{content, position, thread, is_open, named};
ghost use Rattle.lz_proto.specs.Steps.{acted, next, read, finish, looked, claims, installs, sleeps, stores, takes, swaps, opens, result_of, ended};
ghost use Rattle.lz_proto.specs.Kept.{IsKept};
ghost use Rattle.lz_proto.specs.Promises.{Answers};
ghost use Rattle.lz_proto.specs.declared.pos.Pos.TheVariants as pos;

use crate::act::Act;
use crate::pos::Pos;
use crate::proto::Proto;
use crate::state::State;
use crate::stepped::Stepped;

/// What a result leaves in the cell: the value, or null after an exception.
fn content_of(ended_with: Option<u64>) -> State
    ensures { result ≡ result_of ended_with }
{
    match ended_with {
        Some(value) => State::Done(value),
        None => State::Empty,
    }
}

/// Where a result leaves the accessor.
fn end_of(ended_with: Option<u64>) -> Pos
    ensures { result ≡ ended ended_with }
{
    match ended_with {
        Some(value) => Pos::Got(value),
        None => Pos::Failed,
    }
}

impl Proto {
    /// What comes of an act.
    pub(crate) fn make_act(&mut self, who: u32, act: Act) -> Stepped
        requires there { who < length self.old.at }
        requires room { (c t : ℕ) → position self.old who ≡ pos.Mark c t → 0 < self.old.spare }
        ensures { Answers result (acted self.old who act) self.old self.new }
    {
        let at = self.position(who);
        match act {
            Act::Read(cell) => self.read(who, at, cell),
            Act::Return(value) => self.finish(who, at, Some(value)),
            Act::Throw => self.finish(who, at, None),
            Act::Go => self.go(who, at),
        }
    }

    /// It is entered, from where it has ended or hasn't begun.
    fn read(&mut self, who: u32, at: Pos, cell: u32) -> Stepped
        requires there { who < length self.old.at }
        requires at { position self.old who ≡ at }
        requires kept { IsKept self.old }
        ensures { Answers result (read self.old who at cell) self.old self.new }
    {
        if at.has_ended() && self.has_cell(cell) {
            self.stand(who, Pos::Look(cell));
            Stepped::Moved
        } else {
            Stepped::Wrong
        }
    }

    /// Its initialiser ends with this value, or with an exception.
    fn finish(&mut self, who: u32, at: Pos, ended_with: Option<u64>) -> Stepped
        requires there { who < length self.old.at }
        requires at { position self.old who ≡ at }
        requires kept { IsKept self.old }
        ensures { Answers result (finish self.old who at ended_with) self.old self.new }
    {
        match at {
            Pos::Body(cell) => {
                self.stand(who, Pos::Store(cell, ended_with));
                Stepped::Moved
            }
            _ => Stepped::Wrong,
        }
    }

    /// Its next step.
    fn go(&mut self, who: u32, at: Pos) -> Stepped
        requires there { who < length self.old.at }
        requires at { position self.old who ≡ at }
        requires kept { IsKept self.old }
        requires room { (c t : ℕ) → position self.old who ≡ pos.Mark c t → 0 < self.old.spare }
        ensures { Answers result (next self.old who at) self.old self.new }
    {
        match at {
            Pos::Look(cell) => self.look(who, cell),
            Pos::Claim(cell) => self.claim(who, cell),
            Pos::Store(cell, ended_with) => self.store(who, cell, ended_with),
            Pos::Take(cell, ended_with) => self.take(who, cell, ended_with),
            Pos::Swap(cell, ended_with, latch) => self.swap(who, cell, ended_with, latch),
            Pos::Open(latch, ended_with) => self.unlatch(who, latch, ended_with),
            Pos::Mark(cell, thread) => self.mark(who, cell, thread),
            Pos::Install(cell, latch) => self.install(who, cell, latch),
            Pos::Sleep(cell, latch) => self.sleep(who, cell, latch),
            Pos::Idle | Pos::Body(_) | Pos::Got(_) | Pos::Failed | Pos::Cycle => Stepped::Wrong,
        }
    }

    /// It reads the field.
    fn look(&mut self, who: u32, cell: u32) -> Stepped
        requires there { who < length self.old.at }
        requires at { position self.old who ≡ pos.Look cell }
        requires kept { IsKept self.old }
        ensures { Answers result (next self.old who (pos.Look cell)) self.old self.new }
    {
        let next = self.looked(who, cell, self.cell(cell));
        self.stand(who, next);
        Stepped::Moved
    }

    /// Where it goes on after it read this content.
    fn looked(&self, who: u32, cell: u32, held: State) -> Pos
        requires there { who < length self.now.at }
        requires kept { IsKept self.now }
        requires held { held ≡ content self.now cell }
        ensures { result ≡ looked self.now who cell held }
    {
        match held {
            State::Empty => Pos::Claim(cell),
            State::Evaluating(thread) => {
                if thread == self.thread(who) {
                    Pos::Cycle
                } else {
                    Pos::Mark(cell, thread)
                }
            }
            State::Waiting(latch) => {
                if self.owner(latch) == self.thread(who) {
                    Pos::Cycle
                } else {
                    Pos::Sleep(cell, latch)
                }
            }
            State::Done(value) => Pos::Got(value),
        }
    }

    /// It exchanges null for `Evaluating`.
    fn claim(&mut self, who: u32, cell: u32) -> Stepped
        requires there { who < length self.old.at }
        requires at { position self.old who ≡ pos.Claim cell }
        requires kept { IsKept self.old }
        ensures { Answers result (next self.old who (pos.Claim cell)) self.old self.new }
    {
        match self.cell(cell) {
            State::Empty => {
                let thread = self.thread(who);
                self.write(who, cell, State::Evaluating(thread), Pos::Body(cell));
            }
            _ => self.stand(who, Pos::Look(cell)),
        }
        Stepped::Moved
    }

    /// It exchanges its own `Evaluating` for the result.
    fn store(&mut self, who: u32, cell: u32, ended_with: Option<u64>) -> Stepped
        requires there { who < length self.old.at }
        requires at { position self.old who ≡ pos.Store cell ended_with }
        requires kept { IsKept self.old }
        ensures { Answers result (next self.old who (pos.Store cell ended_with)) self.old self.new }
    {
        match self.cell(cell) {
            State::Evaluating(thread) if thread == self.thread(who) => {
                self.write(who, cell, content_of(ended_with), end_of(ended_with));
            }
            _ => self.stand(who, Pos::Take(cell, ended_with)),
        }
        Stepped::Moved
    }

    /// It reads the latch in the field.
    fn take(&mut self, who: u32, cell: u32, ended_with: Option<u64>) -> Stepped
        requires there { who < length self.old.at }
        requires at { position self.old who ≡ pos.Take cell ended_with }
        requires kept { IsKept self.old }
        ensures { Answers result (next self.old who (pos.Take cell ended_with)) self.old self.new }
    {
        match self.cell(cell) {
            State::Waiting(latch) => {
                self.stand(who, Pos::Swap(cell, ended_with, latch));
                Stepped::Moved
            }
            _ => Stepped::Wrong,
        }
    }

    /// It exchanges the latch for the result.
    fn swap(&mut self, who: u32, cell: u32, ended_with: Option<u64>, latch: u32) -> Stepped
        requires there { who < length self.old.at }
        requires at { position self.old who ≡ pos.Swap cell ended_with latch }
        requires kept { IsKept self.old }
        ensures { Answers result (next self.old who (pos.Swap cell ended_with latch)) self.old self.new }
    {
        match self.cell(cell) {
            State::Waiting(other) if other == latch => {
                self.write(
                    who,
                    cell,
                    content_of(ended_with),
                    Pos::Open(latch, ended_with),
                );
                Stepped::Moved
            }
            _ => Stepped::Wrong,
        }
    }

    /// It opens the latch.
    fn unlatch(&mut self, who: u32, latch: u32, ended_with: Option<u64>) -> Stepped
        requires there { who < length self.old.at }
        requires at { position self.old who ≡ pos.Open latch ended_with }
        requires kept { IsKept self.old }
        ensures { Answers result (next self.old who (pos.Open latch ended_with)) self.old self.new }
    {
        self.open(who, latch, end_of(ended_with));
        Stepped::Moved
    }

    /// It makes a latch that names this thread.
    fn mark(&mut self, who: u32, cell: u32, thread: u32) -> Stepped
        requires there { who < length self.old.at }
        requires at { position self.old who ≡ pos.Mark cell thread }
        requires kept { IsKept self.old }
        requires room { 0 < self.old.spare }
        ensures { Answers result (next self.old who (pos.Mark cell thread)) self.old self.new }
    {
        self.make(who, cell, thread);
        Stepped::Moved
    }

    /// It exchanges `Evaluating` of the latch's thread for the latch.
    fn install(&mut self, who: u32, cell: u32, latch: u32) -> Stepped
        requires there { who < length self.old.at }
        requires at { position self.old who ≡ pos.Install cell latch }
        requires kept { IsKept self.old }
        ensures { Answers result (next self.old who (pos.Install cell latch)) self.old self.new }
    {
        match self.cell(cell) {
            State::Evaluating(thread) if thread == self.owner(latch) => {
                self.write(who, cell, State::Waiting(latch), Pos::Look(cell));
            }
            _ => self.stand(who, Pos::Look(cell)),
        }
        Stepped::Moved
    }

    /// It awaits the latch.
    fn sleep(&mut self, who: u32, cell: u32, latch: u32) -> Stepped
        requires there { who < length self.old.at }
        requires at { position self.old who ≡ pos.Sleep cell latch }
        requires kept { IsKept self.old }
        ensures { Answers result (next self.old who (pos.Sleep cell latch)) self.old self.new }
    {
        if self.is_open(latch) {
            self.stand(who, Pos::Look(cell));
            Stepped::Moved
        } else {
            Stepped::Waits
        }
    }
}
