//! The text of an event.

ghost use Rattle.std.specs.Prelude.{◌≡◌, ◌++◌, IfOk, OnOk, encode_utf8_all};
ghost use Rattle.rt_trace.specs.Traces.{escape, escaped, message_text, uncaught_text, event_line, event_text};
ghost use Rattle.ty_prog.specs.declared.event.Event.TheVariants as event;

use crate::NoMemory;
use itoa::Buffer;
use sl_base::Name;
use std::alloc::Global;
use ty_prog::Event;

// Appends the line of an event.
pub(crate) fn put_event(
    alloc: Global,
    event: &Event,
    numbered: bool,
    into: &mut Vec<u8>,
) -> Result<(), NoMemory>
    ensures { OnOk result (into.new.items ≡ into.old.items ++ event_text numbered event.now) }
{
    match event {
        Event::Line { thread, text } => put_line(*thread, text, numbered, into)?,
        Event::Uncaught {
            thread,
            class,
            message,
        } => put_uncaught(alloc, *thread, class, message, numbered, into)?,
    }
    into.push(b'\n')?;
    Ok(())
}

// Appends a printed line, without its LF.
fn put_line(thread: u32, text: &Name, numbered: bool, into: &mut Vec<u8>) -> Result<(), NoMemory>
    ensures { OnOk result (into.new.items ≡ into.old.items ++ event_line numbered (event.Line thread text.now)) }
{
    if numbered {
        into.extend_from_slice(b"line ")?;
        into.extend_from_slice(Buffer::new().format(thread).as_bytes())?;
        into.extend_from_slice(b": ")?;
        put_escaped(text.as_str().as_bytes(), into)
    } else {
        into.extend_from_slice(text.as_str().as_bytes())?;
        Ok(())
    }
}

// Appends what is told of an uncaught exception, without an LF.
fn put_uncaught(
    alloc: Global,
    thread: u32,
    class: &Name,
    message: &Option<Name>,
    numbered: bool,
    into: &mut Vec<u8>,
) -> Result<(), NoMemory>
    ensures { OnOk result (into.new.items ≡ into.old.items ++ event_line numbered (event.Uncaught thread class.now message.now)) }
{
    let text = uncaught_text(alloc, thread, class, message)?;
    if numbered {
        put_escaped(text.as_slice(), into)
    } else {
        into.extend_from_slice(text.as_slice())?;
        Ok(())
    }
}

// What is told of an uncaught exception, without an LF.
fn uncaught_text(
    alloc: Global,
    thread: u32,
    class: &Name,
    message: &Option<Name>,
) -> Result<Vec<u8>, NoMemory>
    ensures { IfOk result (λ text. text.items ≡ uncaught_text thread class.now message.now) }
{
    let mut text = Vec::new(alloc);
    text.extend_from_slice(b"uncaught in thread ")?;
    text.extend_from_slice(Buffer::new().format(thread).as_bytes())?;
    text.extend_from_slice(b": ")?;
    text.extend_from_slice(class.as_str().as_bytes())?;
    if let Some(message) = message {
        text.extend_from_slice(b": ")?;
        text.extend_from_slice(message.as_str().as_bytes())?;
    }
    Ok(text)
}

// Appends a text with `\`, LF and CR escaped.
fn put_escaped(text: &[u8], into: &mut Vec<u8>) -> Result<(), NoMemory>
    ensures { OnOk result (into.new.items ≡ into.old.items ++ escaped text.now) }
{
    for byte in text {
        put_escape(*byte, into)?;
    }
    Ok(())
}

// Appends a byte, escaped where it has to be.
fn put_escape(byte: u8, into: &mut Vec<u8>) -> Result<(), NoMemory>
    ensures { OnOk result (into.new.items ≡ into.old.items ++ escape byte) }
{
    match byte {
        b'\\' => into.extend_from_slice(b"\\\\")?,
        b'\n' => into.extend_from_slice(b"\\n")?,
        b'\r' => into.extend_from_slice(b"\\r")?,
        _ => into.push(byte)?,
    }
    Ok(())
}
