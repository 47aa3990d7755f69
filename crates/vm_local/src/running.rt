//! Many instructions of one frame, over code that is at hand.

ghost use Rattle.std.specs.Prelude.{◌≡◌, Some};
ghost use Rattle.vm_state.specs.Methods.{code_of};
ghost use Rattle.vm_local.specs.Batches.{after, AllStay, IsCut, Leaves};

use crate::acting::instruct_in;
use cf_form::Code;
use cf_link::Linked;
use vm_state::{Effect, Frame};

/// How many instructions stayed in their frame, and how the next one leaves it where one does.
#[derive(Clone, Copy, Debug)]
pub struct Ran {
    pub count: u32,
    pub left: Option<Effect>,
}

/// Makes so many instructions of a frame, or fewer where one leaves it.
#[inline]
pub fn run_frame(k: &Linked, code: &Code, f: &mut Frame, most: u32) -> Ran
    requires { code_of k.now f.old.class f.old.method ≡ Some code.now }
    ensures few { IsCut result.left result.count most }
    ensures stay { AllStay k.now result.count f.old }
    ensures frame { f.new ≡ after k.now result.count f.old }
    ensures leaves { Leaves k.now f.new result.left }
{
    for n in 0..most {
        match instruct_in(k, code, f) {
            Effect::Done => {}
            other => {
                return Ran {
                    count: n,
                    left: Some(other),
                };
            }
        }
    }
    Ran {
        count: most,
        left: None,
    }
}
