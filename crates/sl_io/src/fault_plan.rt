ghost use Rattle.std.specs.Prelude.{◌≡◌, ◌≤◌, false};
ghost use Rattle.sl_io.specs.FaultPlan.{is_failing, after_call};

use std::marker::Model;

// The calls that are to fail, by their numbers from 1.
#[derive(Debug, Drop)]
pub struct FaultPlan {
    failing: Vec<u32>,
    calls: u32,
    faults: u64,
}

impl Model for FaultPlan {
    ghost use Rattle.sl_io.specs.FaultPlan.{Plan};

    ghost Value = { Plan };

    ghost view = { λ p. record { failing = p.failing.items; calls = p.calls; faults = p.faults } };
}

impl FaultPlan {
    // A plan of which no call has come.
    pub fn new(failing: Vec<u32>) -> FaultPlan
        ensures { result ≡ record { failing = failing.items; calls = 0; faults = 0 } }
    {
        FaultPlan {
            failing,
            calls: 0,
            faults: 0,
        }
    }

    // How many calls came.
    pub fn calls(&self) -> u32
        ensures { result ≡ self.now.calls }
    {
        self.calls
    }

    // Counts a call, and says whether it is to fail.
    pub fn fails_next(&mut self) -> bool
        ensures fails { result ≡ is_failing self.old }
        ensures after { self.new ≡ after_call self.old }
        ensures counts { self.old.faults ≤ self.new.faults }
        ensures quiet { result ≡ false → self.new.faults ≡ self.old.faults }
    {
        self.calls = self.calls.saturating_add(1);
        let fails = self.failing.contains(&self.calls);
        if fails {
            self.faults = self.faults.saturating_add(1);
        }
        fails
    }
}
