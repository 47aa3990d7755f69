//! A line is printed.

ghost use Rattle.std.specs.Prelude.{◌≡◌};
ghost use Rattle.sm_rule.specs.declared.answer.Answer.TheVariants as answer;
ghost use Rattle.sm_rule.specs.declared.answer.Edit.TheVariants as edit;
ghost use Rattle.sm_state.specs.declared.value.Value.TheVariants as value;
ghost use Rattle.ty_prog.specs.declared.event.Event.TheVariants as event;

use sl_base::Name;
use sm_rule::{Answer, Edit};
use sm_state::Value;
use ty_prog::Event;

// The event of a line of a thread.
pub(crate) fn print(t: u32, text: Name) -> Answer
    ensures { result ≡ answer.Gives (edit.AddEvent (event.Line t text)) value.Unit }
{
    Answer::Gives {
        edit: Edit::AddEvent(Event::Line { thread: t, text }),
        value: Value::Unit,
    }
}
