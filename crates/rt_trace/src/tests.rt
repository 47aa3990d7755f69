use super::{TurnFault, read_turns, trace_text, turns_text};
use runs::Turn;
use sl_base::Name;
use std::test::Fail;
use ty_prog::Event;

// Texts of turns, and the first wrong line of others.
#[test]
fn texts_of_turns(rt: HostRuntime) -> Result<(), Fail> {
    let rows = [
        ("", 0, 0),
        ("1 50\n", 0, 1),
        ("1 50\n4294967295 4294967295\n2 1\n", 0, 3),
        ("1 0\n", 1, 0),
        ("0 1\n", 1, 0),
        ("1 1\n01 1\n", 2, 0),
        ("1 1\n1 01\n", 2, 0),
        ("1 4294967296\n", 1, 0),
        ("1 99999999999\n", 1, 0),
        ("1 1\n\n", 2, 0),
        ("1 1\n2 2", 2, 0),
        ("1 1\n2  2\n", 2, 0),
        ("1 1\n+2 2\n", 2, 0),
        ("1 1\r\n", 1, 0),
        ("1 1 \n", 1, 0),
        ("1\n1 1\n", 1, 0),
        ("1 1\n2 2\nx\n", 3, 0),
    ];
    for (text, line, count) in rows {
        match read_turns(rt.alloc(), text.as_bytes()) {
            Ok(turns) => {
                assert_eq!(rt; line, 0);
                assert_eq!(rt; turns.len(), count);
                let again = turns_text(rt.alloc(), turns.as_slice())?;
                assert!(rt; again.as_slice() == text.as_bytes());
            }
            Err(fault) => assert!(rt; fault == TurnFault::Line { line }),
        }
    }
    Ok(())
}

// The texts of printed lines and uncaught exceptions, plain and with threads named.
#[test]
fn texts_of_events(rt: HostRuntime) -> Result<(), Fail> {
    let rows = [
        ("one", "", "", "one\n", "line 7: one\n"),
        (
            "a\\b\nc\rd",
            "",
            "",
            "a\\b\nc\rd\n",
            "line 7: a\\\\b\\nc\\rd\n",
        ),
        ("", "", "", "\n", "line 7: \n"),
        (
            "",
            "LazyCycle",
            "",
            "uncaught in thread 7: LazyCycle\n",
            "uncaught in thread 7: LazyCycle\n",
        ),
        (
            "",
            "Error",
            "no\nway",
            "uncaught in thread 7: Error: no\nway\n",
            "uncaught in thread 7: Error: no\\nway\n",
        ),
    ];
    for (text, class, message, plain, numbered) in rows {
        let mut events = Vec::new(rt.alloc());
        if class.is_empty() {
            let text = Name::from_text(rt.alloc(), text)?;
            events.push(Event::Line { thread: 7, text })?;
        } else {
            let class = Name::from_text(rt.alloc(), class)?;
            let message = if message.is_empty() {
                None
            } else {
                Some(Name::from_text(rt.alloc(), message)?)
            };
            events.push(Event::Uncaught {
                thread: 7,
                class,
                message,
            })?;
        }
        let text = trace_text(rt.alloc(), events.as_slice(), false)?;
        assert!(rt; text.as_slice() == plain.as_bytes());
        let text = trace_text(rt.alloc(), events.as_slice(), true)?;
        assert!(rt; text.as_slice() == numbered.as_bytes());
    }
    Ok(())
}
