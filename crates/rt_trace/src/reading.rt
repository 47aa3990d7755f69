//! The turn that stands in front of some bytes.

ghost use Rattle.std.specs.Prelude.{◌≡◌, MatchOption, None, Some};
ghost use Rattle.rt_trace.specs.Reading.{turn_before, turn_in_front};

use crate::numbers::number_before;
use runs::Turn;

// The turn in front, and what stands behind its line.
pub(crate) fn turn_in_front(bytes: &[u8]) -> Option<(Turn, &[u8])>
    ensures { MatchOption result (turn_in_front bytes.now ≡ None) (λ found. turn_in_front bytes.now ≡ Some (found.0, found.1.now)) }
{
    match number_before(b' ', bytes) {
        Some((thread, after)) => turn_before(thread, after),
        None => None,
    }
}

// The turn of a thread whose number stood in front, and what stands behind its line.
fn turn_before(thread: u32, bytes: &[u8]) -> Option<(Turn, &[u8])>
    ensures { MatchOption result (turn_before thread bytes.now ≡ None) (λ found. turn_before thread bytes.now ≡ Some (found.0, found.1.now)) }
{
    match number_before(b'\n', bytes) {
        Some((count, after)) => Some((Turn { thread, count }, after)),
        None => None,
    }
}
