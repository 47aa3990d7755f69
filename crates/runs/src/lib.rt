//! Schedules of threads, what a run over turns is, and programs that make runs and schedules.
#![tactic(auto)]

mod circle;
mod ending;
mod endings;
mod given_turns;
mod giving;
mod judging;
mod laws;
mod least;
mod mover;
mod next_step;
mod ran;
mod reported;
mod robin;
mod rounds;
mod run_laws;
mod running;
mod standing;
mod taking;
mod threaded;
mod turn;
mod walk;

pub use ending::Ending;
pub use endings::one_ending;
pub use giving::given;
pub use judging::ending_of;
pub use laws::{
    agreement, bound_is_needed, composition, implementation, matching, matching_by_parts,
    quiet_moves, simulation, waits_for_others,
};
pub use next_step::NextStep;
pub use ran::Ran;
pub use reported::{one_reported, reported_cycle};
pub use robin::round_robin;
pub use run_laws::{batches, changes, cycles, invariants, least_cycle, plans, replay, told_cycles};
pub use running::run;
pub use sl_base::NoMemory;
pub use standing::Standing;
pub use threaded::Threaded;
pub use turn::Turn;
