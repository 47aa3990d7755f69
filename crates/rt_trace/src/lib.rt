//! The texts of runs: traces and schedules.
#![tactic(auto)]

ghost use Rattle.std.specs.Prelude.{◌≡◌, ◌^◌, ◌<◌, List, MatchResult, length, IfOk, IfErr};
ghost use Rattle.runs.specs.declared.turn.Turn.{Turn as ATurn};
ghost use Rattle.rt_trace.specs.Fault.{IfLine};
ghost use Rattle.rt_trace.specs.Traces.{trace_text};
ghost use Rattle.rt_trace.specs.Turns.{AreTurns, IsFirstWrong, turns_text};

mod event_text;
mod fault;
mod laws;
mod numbers;
mod reading;
mod turn_text;

use event_text::put_event;
pub use fault::TurnFault;
pub use laws::turns;
use reading::turn_in_front;
use runs::Turn;
pub use sl_base::NoMemory;
use std::alloc::Global;
use turn_text::put_turn;
use ty_prog::Event;

#[cfg(test)]
mod tests;

/// The text of a trace: each printed line, and a line for each uncaught exception. Where it is numbered, a printed line
/// tells its thread, and `\`, LF and CR are written `\\`, `\n` and `\r`. Errors: want of memory.
pub fn trace_text(alloc: Global, events: &[Event], numbered: bool) -> Result<Vec<u8>, NoMemory>
    ensures { IfOk result (λ text. text.items ≡ trace_text numbered events.now) }
{
    let mut text = Vec::new(alloc);
    for event in events {
        put_event(alloc, event, numbered, &mut text)?;
    }
    Ok(text)
}

/// The text of a schedule: one line `THREAD COUNT` a turn. Errors: want of memory.
pub fn turns_text(alloc: Global, turns: &[Turn]) -> Result<Vec<u8>, NoMemory>
    ensures { IfOk result (λ text. text.items ≡ turns_text turns.now) }
{
    let mut text = Vec::new(alloc);
    for turn in turns {
        put_turn(*turn, &mut text)?;
    }
    Ok(text)
}

/// The turns whose text the bytes are. `Line` exactly where they are the text of no turns, and then of the first line that
/// isn't that of a turn.
pub fn read_turns(alloc: Global, bytes: &[u8]) -> Result<Vec<Turn>, TurnFault>
    requires { length bytes.now < 2 ^ 32 }
    // What is read is what the bytes say.
    ensures found { IfOk result (λ turns. AreTurns bytes.now turns.items) }
    // What they say is read, unless memory runs out.
    ensures only { (turns : List ATurn) → AreTurns bytes.now turns → MatchResult result (λ read. read.items ≡ turns) (λ fault. fault ≡ TurnFault.Memory) }
    // Which line is wrong.
    ensures wrong { IfErr result (λ fault. IfLine fault (IsFirstWrong bytes.now)) }
{
    let mut turns = Vec::new(alloc);
    let mut rest = bytes;
    while !rest.is_empty() {
        match turn_in_front(rest) {
            Some((turn, after)) => {
                turns.push(turn)?;
                rest = after;
            }
            None => {
                return Err(TurnFault::Line {
                    line: turns.len() as u32 + 1,
                });
            }
        }
    }
    Ok(turns)
}
