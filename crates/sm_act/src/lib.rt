//! What comes of an act, as the rules of the source meaning say.
#![tactic(auto)]

ghost use Rattle.std.specs.Prelude.{◌≡◌, IfOk};
ghost use Rattle.sm_rule.specs.Perform.{perform};

mod arguments;
mod calls;
mod cells;
mod comparing;
mod converting;
mod fields;
mod latches;
mod making;
mod modules;
mod printing;
mod starting;
mod texts;

use calls::{call, call_directly, call_super, construct, construct_above};
use cells::read_cell;
pub use comparing::class_name;
use comparing::{call_equals, compare, match_error, name_class, text, to_string};
pub use converting::is_instance;
use converting::{convert, passes};
use fields::{exchange, gives, read, write};
use latches::{await_latch, is_mine, make_latch, open_latch};
use making::make;
pub use making::number;
use modules::{read_module, set_module};
use printing::print;
pub use sl_base::NoMemory;
use sm_rule::{Act, Answer};
use sm_state::{Heap, Value};
use starting::start;
use std::alloc::Global;
use ty_prog::Program;

#[cfg(test)]
mod tests;

/// What comes of an act of the thread with this number (SLS 6.4 to 6.6, 12.1, SIP-20, JVMS 5.5, 6.5). Errors: want of
/// memory, also for a number that its type has no room for.
pub fn perform(alloc: Global, p: &Program, h: &Heap, t: u32, act: Act) -> Result<Answer, NoMemory>
    ensures { IfOk result (λ a. a ≡ perform p.now h.now t act) }
{
    match act {
        Act::Read { of, class, field } => read(alloc, p, h, &of, class, field),
        Act::Write {
            of,
            class,
            field,
            new,
        } => write(p, h, &of, class, field, new),
        Act::Exchange {
            of,
            class,
            field,
            old,
            new,
        } => exchange(p, h, &of, class, field, &old, new),
        Act::ReadCell { of, class, cell } => read_cell(alloc, p, h, t, &of, class, cell),
        Act::ReadModule(class) => read_module(alloc, h, t, class),
        Act::SetModule { class, of } => Ok(set_module(h, class, of)),
        Act::Call {
            class,
            method,
            args,
        } => call(alloc, p, h, class, method, &args),
        Act::CallSuper {
            after,
            name,
            this,
            args,
        } => Ok(call_super(p, h, after, &name, &this, args)),
        Act::CallDirectly {
            class,
            method,
            args,
        } => call_directly(alloc, p, class, method, args),
        Act::Make(class) => make(alloc, p, h, class),
        Act::Construct { class, args } => construct(alloc, class, &args),
        Act::ConstructAbove { class, this, args } => Ok(construct_above(p, class, this, args)),
        Act::Compare { one, other } => compare(alloc, p, h, &one, other),
        Act::CallEquals { one, other } => call_equals(alloc, p, h, &one, other),
        Act::TextOf(v) => text(alloc, p, h, &v),
        Act::CallToString(v) => to_string(alloc, p, h, &v),
        Act::NameClass(v) => name_class(alloc, p, h, &v),
        Act::Convert { to, of } => Ok(convert(p, h, to, of)),
        Act::Test { of, test } => Ok(gives(Value::Bool(passes(p, h, &of, test)))),
        Act::Unmatched(v) => match_error(alloc, p, h, &v),
        Act::Print(text) => Ok(print(t, text)),
        Act::Start(v) => start(alloc, p, h, &v),
        Act::Mine => Ok(gives(Value::Evaluating(t))),
        Act::MakeLatch(v) => make_latch(h, &v),
        Act::IsMine(v) => Ok(gives(Value::Bool(is_mine(t, &v)))),
        Act::Await(v) => Ok(await_latch(h, &v)),
        Act::CountDown(v) => Ok(open_latch(&v)),
    }
}
