use crate::perform;
use sl_base::{Name, NoMemory};
use sm_rule::{Act, Answer, Edit};
use sm_state::{Heap, Sequence, Value, made};
use std::alloc::Global;
use std::test::Fail;
use ty_prog::prelude_number::MATCH_ERROR;
use ty_prog::{Program, Ty, prelude};

// The prelude alone, and a heap with one object.
fn program(alloc: Global) -> Result<Program, NoMemory> {
    Ok(Program {
        classes: prelude(alloc)?,
        main: MATCH_ERROR,
    })
}

fn heap(alloc: Global, p: &Program) -> Result<Heap, NoMemory> {
    let mut objects = Sequence::new(alloc);
    objects.push(made(alloc, p.classes.as_slice(), MATCH_ERROR, &None)?)?;
    Ok(Heap {
        objects,
        latches: Sequence::new(alloc),
        modules: Sequence::new(alloc),
        trace: Sequence::new(alloc),
    })
}

fn is_text(answer: &Answer, text: &str) -> bool {
    match answer {
        Answer::Gives {
            value: Value::Text(given),
            ..
        } => given.as_str() == text,
        _ => false,
    }
}

// The texts of values and the names of their classes.
#[test]
fn texts(rt: HostRuntime) -> Result<(), Fail> {
    let p = program(rt.alloc())?;
    let h = heap(rt.alloc(), &p)?;
    for (act, text) in [
        (Act::TextOf(Value::Int(-5)), "-5"),
        (Act::TextOf(Value::Long(1099511627776)), "1099511627776"),
        (Act::TextOf(Value::Null), "null"),
        (Act::CallToString(Value::Bool(true)), "true"),
        (Act::NameClass(Value::Int(1)), "Integer"),
        (Act::NameClass(Value::Ref(0)), "MatchError"),
    ] {
        let answer = perform(rt.alloc(), &p, &h, 1, act)?;
        assert!(rt; is_text(&answer, text));
    }
    Ok(())
}

// A conversion, a new object, a field of null and a start of null.
#[test]
fn answers(rt: HostRuntime) -> Result<(), Fail> {
    let p = program(rt.alloc())?;
    let h = heap(rt.alloc(), &p)?;
    let act = Act::Convert {
        to: Ty::Int,
        of: Value::Long(4294967303),
    };
    let answer = perform(rt.alloc(), &p, &h, 1, act)?;
    assert!(rt; matches!(&answer, Answer::Gives { value: Value::Int(n), .. } if *n == 7));
    let answer = perform(rt.alloc(), &p, &h, 1, Act::Make(MATCH_ERROR))?;
    assert!(rt;
        matches!(&answer, Answer::Gives { edit: Edit::AddObject(_), value: Value::Ref(r) } if *r == 1)
    );
    let answer = perform(rt.alloc(), &p, &h, 1, Act::Start(Value::Null))?;
    assert!(rt; matches!(&answer, Answer::Throws { class, .. } if *class == 6));
    Ok(())
}
