use crate::{Module, Once, State, Value, field_number, made, start};
use sl_base::NoMemory;
use sqlite_items::Items;
use std::alloc::Global;
use std::test::Fail;
use ty_prog::prelude_number::{MATCH_ERROR, PRELUDE_LEN, THREAD, THROWABLE};
use ty_prog::{Cell, Class, Expr, Kind, Method, Name, Program, Ty, prelude};

// `object Main { lazy val x: Int = 1; def main(): Unit = () }`
fn program(alloc: Global) -> Result<Program, NoMemory> {
    let mut main = Class::new(alloc, Name::from_text(alloc, "Main")?, Kind::Object);
    main.linear = Items::from_slice(alloc, &[PRELUDE_LEN])?;
    let name = Name::from_text(alloc, "x")?;
    main.cells.push(Cell::new(name, Ty::Int, Expr::Int(1), 0))?;
    let name = Name::from_text(alloc, "main")?;
    let method = Method::new(alloc, name, Ty::Unit, Some(Expr::Unit));
    main.methods.push(method)?;
    let mut classes = prelude(alloc)?;
    classes.push(main)?;
    Ok(Program {
        classes,
        main: PRELUDE_LEN,
    })
}

fn begins_at_main(s: &State<'_>) -> bool {
    let Some(thread) = s.threads.get(0) else {
        return false;
    };
    match thread.contexts.top() {
        Some(c) => c.class == PRELUDE_LEN && matches!(c.this, Value::Null),
        None => false,
    }
}

#[test]
fn first_states(rt: HostRuntime) -> Result<(), Fail> {
    let p = program(rt.alloc())?;
    let s = start(rt.alloc(), &p)?;
    assert!(rt; begins_at_main(&s));
    assert_eq!(rt; (s.threads.len(), s.heap.objects.len()), (1, 0));
    assert_eq!(rt; s.heap.modules.len(), p.classes.len());
    assert!(rt; matches!(s.heap.modules.get(0), Some(Module::NotYet)));
    Ok(())
}

// The class of each object, and how many fields and cells it has.
#[test]
fn new_objects(rt: HostRuntime) -> Result<(), Fail> {
    let p = program(rt.alloc())?;
    let classes = p.classes.as_slice();
    for (class, fields, cells) in [
        (THREAD, 2, 0),
        (THROWABLE, 1, 0),
        (MATCH_ERROR, 4, 0),
        (PRELUDE_LEN, 0, 1),
    ] {
        let o = made(rt.alloc(), classes, class, &None)?;
        assert_eq!(rt; (o.fields.len(), o.cells.len()), (fields, cells));
    }
    let given = Some(Value::Text(Name::from_text(rt.alloc(), "P")?));
    let o = made(rt.alloc(), classes, MATCH_ERROR, &given)?;
    let number = field_number(classes, MATCH_ERROR, THROWABLE, 0)?;
    assert_eq!(rt; number, Some(3));
    assert!(rt; matches!(o.fields.get(3), Some(Value::Text(_))));
    let o = made(rt.alloc(), classes, PRELUDE_LEN, &None)?;
    assert!(rt; matches!(o.cells.get(0), Some(Once::Empty)));
    Ok(())
}
