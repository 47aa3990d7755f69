use super::fakes::{Stream, one_file, sink};
use sl_base::Name;
use sl_top::{Finished, top};
use std::alloc::{AllocError, Global};
use std::test::Fail;

// Calls over a shelf that has `m.scala` alone. A row has the words and the body of `main`; the call of the shelf that fails
// and the one that finds no memory, where they aren't 0; the most bytes that `out` takes at a call, and the same two calls;
// these of `err`; then the status, what stands on `out` and on `err`, and the steps of the schedule. `$` stands for LF.
// First listings, then files of other forms, then files that are checked, and then streams and shelves that refuse.
const CALLS: &str = "run m.scala||0 0|99 0 0|99 0 0|0|||1
run m.scala|println(0)$|0 0|99 0 0|99 0 0|0|0$||3
run m.scala|println(2147483647 + 1)$|0 0|99 0 0|99 0 0|0|-2147483648$||5
run m.scala|println(2 + 3 * 4 - 5)$|0 0|99 0 0|99 0 0|0|9$||9
run m.scala|  println(10 - 4 - 3)$|0 0|99 0 0|99 0 0|0|3$||7
run m.scala|println(0 - 2147483647 - 1)$|0 0|99 0 0|99 0 0|0|-2147483648$||7
run m.scala|println(0 - 2147483647 - 2)$|0 0|99 0 0|99 0 0|0|2147483647$||7
run m.scala|println(65536 * 65536 + 7)$|0 0|99 0 0|99 0 0|0|7$||7
run m.scala|println(46341 * 46341)$|0 0|99 0 0|99 0 0|0|-2147479015$||5
run m.scala|println(2 * 3 + 4 * 5 - 6 * 7)$|0 0|99 0 0|99 0 0|0|-16$||13
run m.scala|println(2 - 3 * 4 * 5 + 6)$|0 0|99 0 0|99 0 0|0|-52$||11
run m.scala|println(2147483648)$|0 0|99 0 0|99 0 0|4||m.scala: not built$|0
run m.scala|println(99999999999999999999)$|0 0|99 0 0|99 0 0|4||m.scala: not built$|0
run m.scala|println(01)$|0 0|99 0 0|99 0 0|4||m.scala: not built$|0
run m.scala|println(-1)$|0 0|99 0 0|99 0 0|4||m.scala: not built$|0
run m.scala|println(1)|0 0|99 0 0|99 0 0|4||m.scala: not built$|0
run m.scala|println(1) $|0 0|99 0 0|99 0 0|4||m.scala: not built$|0
run m.scala|println(1);$|0 0|99 0 0|99 0 0|4||m.scala: not built$|0
run m.scala|println(1)\r$|0 0|99 0 0|99 0 0|4||m.scala: not built$|0
run m.scala|\tprintln(1)$|0 0|99 0 0|99 0 0|4||m.scala: not built$|0
run m.scala|$|0 0|99 0 0|99 0 0|4||m.scala: not built$|0
run m.scala|println()$|0 0|99 0 0|99 0 0|4||m.scala: not built$|0
run m.scala|println(1+2)$|0 0|99 0 0|99 0 0|4||m.scala: not built$|0
run m.scala|println(1 +  2)$|0 0|99 0 0|99 0 0|4||m.scala: not built$|0
run m.scala|println(1 + )$|0 0|99 0 0|99 0 0|4||m.scala: not built$|0
run m.scala|println(1 / 2)$|0 0|99 0 0|99 0 0|4||m.scala: not built$|0
run m.scala|println((1))$|0 0|99 0 0|99 0 0|4||m.scala: not built$|0
run m.scala|}$}$|0 0|99 0 0|99 0 0|4||m.scala: not built$|0
check m.scala||0 0|99 0 0|99 0 0|4||m.scala: not built$|0
check m.scala|val a=\"x\";println(1 /2)$|0 0|99 0 0|99 0 0|4||m.scala: not built$|0
check m.scala|println(1 +)$|0 0|99 0 0|99 0 0|4||m.scala:3:12: parse Unexpected$|0
check m.scala|val$|0 0|99 0 0|99 0 0|4||m.scala:4:1: parse Unexpected$|0
check m.scala|}$}$|0 0|99 0 0|99 0 0|4||m.scala:5:1: parse Unexpected$|0
check m.scala|println('a')$|0 0|99 0 0|99 0 0|4||m.scala:3:9: lex BadChar$|0
check m.scala|$ val a = \"x$|0 0|99 0 0|99 0 0|4||m.scala:4:10: lex OpenText$|0
check m.scala|/* a /* b */$|0 0|99 0 0|99 0 0|4||m.scala:3:1: lex OpenComment$|0
check m.scala|f(\"a\\qb\")$|0 0|99 0 0|99 0 0|4||m.scala:3:3: lex BadEscape$|0
check m.scala|val ; 0123$|0 0|99 0 0|99 0 0|4||m.scala:3:7: lex Number$|0
check m.scala|println(1)$|1 0|9 0 0|99 0 0|5||fault: m.scala$|0
check m.scala|println(1 +)$|0 0|9 1 1|1 14 0|5||m.scala:3:12:|0
check m.scala|println(1)$|0 1|9 0 0|99 0 0|7||memory$|0
check m.scala|println(1 +)$|0 0|9 0 0|1 0 15|7||m.scala:3:12: |0
check n.scala|println(1)$|0 0|9 0 0|99 0 0|8||missing: n.scala$|0
check|println(1)$|0 0|9 0 0|99 0 0|6||usage: scalazy COMMAND FILE [OPTIONS]$|0
run m.scala|println(1)$println(2)$|0 0|9 0 0|99 0 0|0|1$2$||5
run m.scala|println(1)$println(2)$|0 0|1 0 0|99 0 0|0|1$2$||5
run m.scala|println(1)$println(2)$|0 0|9 1 0|99 0 0|5|||5
run m.scala|println(1)$println(2)$|0 0|9 2 0|99 0 0|5|1$||5
run m.scala|println(1)$println(2)$|0 0|1 2 0|99 0 0|5|1||5
run m.scala|println(1)$println(2)$|1 0|9 0 0|99 0 0|5||fault: m.scala$|0
run m.scala|println(1)$println(2)$|1 0|9 0 0|1 9 0|5||fault: m|0
run n.scala|println(1)$println(2)$|0 0|9 0 0|4 3 0|5||missing:|0
run|println(1)$println(2)$|0 0|9 0 0|99 1 0|5|||0
run m.scala|println(1)$println(2)$|0 1|9 0 0|99 0 0|7||memory$|0
run m.scala|println(1)$println(2)$|0 1|9 0 0|1 0 0|7||memory$|0
run m.scala|println(1)$println(2)$|0 0|9 0 1|99 0 0|7||memory$|0
run m.scala|println(1)$println(2)$|0 0|9 0 2|1 0 0|7|1$|memory$|0
run m.scala|println(1)$println(2)$|0 0|1 0 2|99 0 0|7|1|memory$|0
run m.scala|println(1)$println(2)$|0 0|1 0 4|99 0 0|7|1$2|memory$|0
|println(1)$println(2)$|0 0|9 0 0|99 0 1|7|||0
|println(1)$println(2)$|0 0|9 0 0|1 0 4|7||usa|0
run n.scala|println(1)$println(2)$|0 0|9 0 0|99 0 2|7||missing: |0
run m.scala|println(1)$println(2)$|0 0|9 0 2|1 0 4|7|1$|mem|0
run m.scala|println(1)$println(2)$|0 1|9 0 0|99 1 0|5|||0
run m.scala|println(1)$println(2)$|0 0|9 0 1|99 1 0|5|||5
run m.scala|println(1)$println(2)$|0 0|9 0 2|1 4 0|5|1$|mem|5
run nothing.scala|println(1)$println(2)$|0 0|9 0 0|1 0 0|8||missing: nothing.scala$|0
run größe|println(1)$println(2)$|0 0|9 0 0|99 0 0|8||missing: größe$|0
run |println(1)$println(2)$|0 0|9 0 0|99 0 0|8||missing: $|0
run|println(1)$println(2)$|0 0|9 0 0|1 0 0|6||usage: scalazy COMMAND FILE [OPTIONS]$|0
|println(1)$println(2)$|0 0|9 0 0|99 0 0|6||usage: scalazy COMMAND FILE [OPTIONS]$|0";

// The bytes of a text in which `$` stands for LF.
fn bytes_of(alloc: Global, text: &str) -> Result<Vec<u8>, AllocError> {
    let mut bytes = Vec::from_slice(alloc, text.as_bytes())?;
    for byte in bytes.iter_mut() {
        if *byte == b'$' {
            *byte = b'\n';
        }
    }
    Ok(bytes)
}

// The words between spaces; none where there is no text.
fn words_in(alloc: Global, text: &str) -> Result<Vec<Name>, AllocError> {
    let mut words = Vec::new(alloc);
    if !text.is_empty() {
        for word in text.split(' ') {
            words.push(Name::from_text(alloc, word)?)?;
        }
    }
    Ok(words)
}

// The number at this index among those between spaces, or 0.
fn number(text: &str, index: usize) -> u32 {
    for (i, word) in text.split(' ').enumerate() {
        if i == index {
            return word.parse::<u32>().unwrap_or(0);
        }
    }
    0
}

fn stream(text: &str) -> Stream {
    [number(text, 0), number(text, 1), number(text, 2)]
}

// Whether a call is answered as its row says.
fn is_answered(row: &str, alloc: Global) -> Result<bool, AllocError> {
    let cells: Vec<&str> = row.split('|').collect(alloc)?;
    let [words, body, at, out, err, status, text, line, steps] = cells.as_slice() else {
        return Ok(false);
    };
    let words = words_in(alloc, words)?;
    let body = bytes_of(alloc, body)?;
    let mut shelf = one_file(alloc, &body, [number(at, 0), number(at, 1)])?;
    let mut out = sink(alloc, stream(out))?;
    let mut err = sink(alloc, stream(err))?;
    let finished = top(alloc, words.as_slice(), &mut shelf, &mut out, &mut err);
    let text = bytes_of(alloc, text)?;
    let line = bytes_of(alloc, line)?;
    Ok(
        u32::from(finished.status) == number(status, 0)
            && has_steps(&finished, number(steps, 0))
            && out.inner.bytes() == text.as_slice()
            && err.inner.bytes() == line.as_slice(),
    )
}

// Whether the schedule is one turn of thread 1 with these steps, or empty where they are 0.
fn has_steps(finished: &Finished, steps: u32) -> bool {
    let turns = finished.schedule.as_slice();
    let scheduled = match turns {
        [] => steps == 0,
        [turn] => turn.thread == 1 && turn.count == steps && steps > 0,
        _ => false,
    };
    scheduled && finished.files.is_empty()
}

#[test]
fn calls_are_answered(rt: HostRuntime) -> Result<(), Fail> {
    for row in CALLS.lines() {
        assert!(rt; is_answered(row, rt.alloc())?, "{row}");
    }
    Ok(())
}
