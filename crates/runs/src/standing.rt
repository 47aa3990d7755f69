//! States of systems of threads, for reading.

ghost use Rattle.std.specs.Prelude.{◌≡◌, ℕ};
ghost use Rattle.runs.specs.System.{AbsentHaveEnded, System};
ghost use Rattle.runs.specs.Trying.{able};

use crate::next_step::NextStep;

/// What stands in a state of a system of threads, and tells what each thread does next.
pub trait Standing {
    // What contracts see of an event, of a place where a thread waits, and of a state.
    ghost Event: { Type 0 };

    ghost Place: { Type 0 };

    ghost State: { Type 0 };

    // The system, and the state in which it stands.
    ghost system: { Self → System Event Place State };

    ghost state: { Self → State };

    /// The number of threads; others have ended.
    fn threads(&self) -> u32
        ensures count { result ≡ (system self.now).threads (state self.now) }
        ensures others { AbsentHaveEnded (system self.now) (state self.now) };

    /// What a thread does next.
    fn what_next(&self, thread: u32) -> NextStep
        ensures { result ≡ able ((system self.now).next (state self.now) thread) };
}
