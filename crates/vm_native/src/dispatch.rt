//! One built-in method: an arm for each.

ghost use Rattle.std.specs.Prelude.{◌≡◌, ◌<◌};
ghost use Rattle.vm_native.specs.Acts.{Acts};
ghost use Rattle.vm_state.specs.Natives.{natively};

use crate::boxes::{box_boolean, box_int, box_long, unbox_boolean, unbox_int, unbox_long};
use crate::exchanging::cas;
use crate::kinds::kind_of;
use crate::latches::{await_latch, count_down, latch, owned_here};
use crate::objects::{object_equals, object_init};
use crate::results::give;
use crate::starting::thread_start;
use crate::strings::{concat, println, string_is_empty, string_length};
use crate::telling::{object_to_string, text};
use crate::telling_throwables::throwable_to_string;
use crate::throwables::{get_message, thread_init, throwable_init, throwable_init_text};
use cf_link::{Linked, Native};
use std::alloc::Global;
use vm_state::{Frame, Heap, HeapEffect, Value};

/// What a built-in method does to the heap and to its caller's frame.
pub fn natively(
    alloc: Global,
    k: &Linked,
    h: &mut Heap,
    f: &mut Frame,
    thread: u32,
    native: Native,
) -> HeapEffect
    requires { f.old.pc < 65535 }
    ensures { Acts (natively k.now h.old f.old thread native) result h.old h.new f.old f.new }
{
    match native {
        Native::ObjectInit => object_init(h, f),
        Native::ObjectEquals => object_equals(h, f),
        Native::ObjectToString => object_to_string(alloc, k, h, f),
        Native::StringLength => string_length(h, f),
        Native::StringIsEmpty => string_is_empty(h, f),
        Native::ThreadInit => thread_init(k, h, f),
        Native::ThreadStart => thread_start(alloc, k, h, f),
        Native::ThrowableInit => throwable_init(k, h, f),
        Native::ThrowableInitText => throwable_init_text(k, h, f),
        Native::ThrowableGetMessage => get_message(k, h, f),
        Native::ThrowableToString => throwable_to_string(alloc, k, h, f),
        Native::Cas => cas(k, h, f),
        Native::Latch => latch(h, f),
        Native::CountDown => count_down(h, f),
        Native::Await => await_latch(h, f),
        Native::OwnedHere => owned_here(h, f, thread),
        Native::Evaluating => give(h, f, Value::Evaluating(thread)),
        Native::NullValue => give(h, f, Value::NullValue),
        Native::BoxInt => box_int(h, f),
        Native::BoxLong => box_long(h, f),
        Native::BoxBoolean => box_boolean(h, f),
        Native::BoxUnit => give(h, f, Value::BoxUnit),
        Native::UnboxInt => unbox_int(h, f),
        Native::UnboxLong => unbox_long(h, f),
        Native::UnboxBoolean => unbox_boolean(h, f),
        Native::Text => text(alloc, k, h, f),
        Native::Concat => concat(alloc, h, f),
        Native::KindOf => kind_of(alloc, k, h, f),
        Native::Println => println(alloc, h, f, thread),
    }
}
