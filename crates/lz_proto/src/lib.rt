//! The protocol of lazy members, by itself: cells, latches and accessors, moved one step at a time (SIP-20).
#![tactic(auto)]

ghost use Rattle.std.specs.Prelude.{◌≡◌, ◌<◌, ◌≤◌, ℕ, length};
ghost use Rattle.std.specs.List.{All};
ghost use Rattle.lz_proto.specs.Protocol.{position};
ghost use Rattle.lz_proto.specs.Steps.{acted};
ghost use Rattle.lz_proto.specs.Once.{Follows};
ghost use Rattle.lz_proto.specs.Causes.{WaitsWell, IsBarred, IsWrong};
ghost use Rattle.lz_proto.specs.Promises.{Answers, AllFollow, moves, ran};

mod act;
mod laws;
mod once;
mod pos;
mod proto;
mod reading;
mod state;
mod stepped;
mod stepping;
#[cfg(test)]
mod tests;

pub use act::Act;
pub use laws::{beginning, cycles, freeing, reads, refusals, steps, waiting, written};
pub use once::Once;
pub use pos::Pos;
pub use proto::Proto;
pub use state::State;
pub use stepped::Stepped;

impl Proto {
    /// An act of an accessor. `Waits` comes exactly where it awaits a closed latch; `Wrong` exactly where it stands where it
    /// can't do this, or there is no such cell; nothing changes then. Each other step is one by the rules of cells.
    pub fn step(&mut self, who: u32, act: Act) -> Stepped
        requires there { who < length self.old.at }
        requires room { (c t : ℕ) → position self.old who ≡ Pos.Mark c t → 0 < self.old.spare }
        ensures done { Answers result (acted self.old who act) self.old self.new }
        ensures moved { result ≡ Stepped.Moved → Follows self.old who act self.new }
        ensures waits { (result ≡ Stepped.Waits → WaitsWell self.old who) × (IsBarred self.old who act → result ≡ Stepped.Waits) }
        ensures wrong { (result ≡ Stepped.Wrong → IsWrong self.old who act) × (IsWrong self.old who act → result ≡ Stepped.Wrong) }
    {
        self.kept();
        self.make_act(who, act)
    }

    /// Makes these acts in their order, and returns how many moved.
    pub fn run(&mut self, acts: &[(u32, Act)]) -> u32
        requires there { All (λ a. a.0 < length self.old.at) acts.now }
        requires room { length acts.now ≤ self.old.spare }
        ensures state { self.new ≡ ran self.old acts.now }
        ensures count { result ≡ moves self.old acts.now }
        ensures rules { AllFollow self.old acts.now }
    {
        self.kept();
        let mut made = 0;
        for given in acts {
            let (who, act) = *given;
            made += self.step(who, act).count();
        }
        made
    }
}
