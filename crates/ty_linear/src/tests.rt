ghost use Rattle.std.specs.Prelude.{◌<◌, ◌↔◌, IsTrue, length};
ghost use Rattle.std.specs.List.{All};

use crate::{LinearFault, linearisations, linearise};
use std::alloc::{AllocError, Global};
use std::test::Fail;

// The rows that a text writes: "1 2;;0" writes [1, 2], [] and [0].
fn rows_of(alloc: Global, text: &str) -> Result<Vec<Vec<u32>>, AllocError> {
    let mut rows = Vec::new(alloc);
    for line in text.split(';') {
        let mut row = Vec::new(alloc);
        for word in line.split(' ') {
            if let Ok(class) = word.parse::<u32>() {
                row.push(class)?;
            }
        }
        rows.push(row)?;
    }
    Ok(rows)
}

// Whether each class of the row is below the count.
fn are_below(row: &[u32], count: usize) -> bool
    ensures { IsTrue result ↔ All (λ class. class < count) row.now }
{
    row.iter().all(|class| (*class as usize) < count)
}

// Whether each number in the rows is that of a row.
fn are_classes(rows: &[Vec<u32>]) -> bool
    ensures { IsTrue result ↔ All (λ row. All (λ class. class < length rows.now) row.items) rows.now }
{
    let count = rows.len();
    rows.iter().all(|row| are_below(row, count))
}

// Which parents the classes of a program have.
#[derive(Clone, Copy)]
enum Shape {
    // Each class has the one before it as its parent.
    Rising,
    // Each class has the one after it as its parent, and the last one has this class.
    Falling(Option<u32>),
    // The first class has all others as its parents.
    Fan,
    // Four classes that stand over each other as 3, 1 and 2, 0, and three more over the last, and so on.
    Diamonds,
}

// The parents of one class.
fn row(alloc: Global, shape: Shape, class: u32, count: u32) -> Result<Vec<u32>, AllocError>
    requires { class < count }
{
    let mut row = Vec::new(alloc);
    match shape {
        Shape::Rising => {
            if class > 0 {
                row.push(class - 1)?;
            }
        }
        Shape::Falling(last) => {
            if class + 1 < count {
                row.push(class + 1)?;
            } else if let Some(to) = last {
                row.push(to)?;
            }
        }
        Shape::Fan => {
            if class == 0 {
                for parent in 1..count {
                    row.push(parent)?;
                }
            }
        }
        Shape::Diamonds => {
            if class % 3 == 1 {
                row.push(class - 1)?;
            } else if class >= 2 {
                row.push(class - 2)?;
                if class % 3 == 0 {
                    row.push(class - 1)?;
                }
            }
        }
    }
    Ok(row)
}

// The parents of so many classes.
fn rows_in(alloc: Global, shape: Shape, count: u32) -> Result<Vec<Vec<u32>>, AllocError> {
    let mut rows = Vec::new(alloc);
    for class in 0..count {
        rows.push(row(alloc, shape, class, count)?)?;
    }
    Ok(rows)
}

// By the definition of SLS 5.1.2, worked out by hand.
#[test]
fn small_programs(rt: HostRuntime) -> Result<(), Fail> {
    linearisations();
    for (parents, lists) in [
        ("", "0"),
        (";0;0;1 2", "0;1 0;2 0;3 2 1 0"),
        (";0;0;2 1", "0;1 0;2 0;3 1 2 0"),
        (";0;0 1", "0;1 0;2 1 0"),
        (";0;1 0", "0;1 0;2 1 0"),
        (";0 0", "0;1 0"),
        ("1 2;3;3;", "0 2 1 3;1 3;2 3;3"),
        (";;0 1;1 0;0 1 2", "0;1;2 1 0;3 0 1;4 2 1 0"),
        (
            ";0;0;0;1 2;2 3;4 5",
            "0;1 0;2 0;3 0;4 2 1 0;5 3 2 0;6 5 3 4 2 1 0",
        ),
    ] {
        let rows = rows_of(rt.alloc(), parents)?;
        assert!(rt; are_classes(&rows));
        let want = rows_of(rt.alloc(), lists)?;
        assert!(rt; linearise(rt.alloc(), &rows) == Ok(want), "of {parents}");
    }
    for (parents, class) in [
        ("0", 0),
        ("1;0", 0),
        ("1;1", 1),
        ("1;2;1", 1),
        (";0;3;4;2;2", 2),
        ("3;0 2;1;;2", 1),
        ("1 2;;;4;5;6;5", 5),
        (";2 0;0 3;0 4;0 5;0 6;0 3", 3),
    ] {
        let rows = rows_of(rt.alloc(), parents)?;
        assert!(rt; are_classes(&rows));
        assert!(rt;
            linearise(rt.alloc(), &rows) == Err(LinearFault::Cyclic { class }),
            "of {parents}"
        );
    }
    assert!(rt; linearise(rt.alloc(), &[]) == Ok(Vec::new(rt.alloc())));
    Ok(())
}

// One class's list has all classes, in rising or in falling order, also where there are as many as a program may have.
#[test]
fn shapes(rt: HostRuntime) -> Result<(), Fail> {
    for (shape, count, class, is_rising) in [
        (Shape::Rising, 301, 300, false),
        (Shape::Rising, 4100, 4099, false),
        (Shape::Falling(None), 301, 0, true),
        (Shape::Falling(None), 4100, 0, true),
        (Shape::Diamonds, 301, 300, false),
        (Shape::Diamonds, 4099, 4098, false),
    ] {
        let rows = rows_in(rt.alloc(), shape, count)?;
        assert!(rt; are_classes(&rows));
        let mut want: Vec<u32> = (0..count).collect(rt.alloc())?;
        if !is_rising {
            want.reverse();
        }
        assert!(rt;
            linearise(rt.alloc(), &rows)?.get(class) == Some(&want),
            "of {class}"
        );
    }
    let rows = rows_in(rt.alloc(), Shape::Fan, 4100)?;
    assert!(rt; are_classes(&rows));
    let mut want: Vec<u32> = (1..4100).collect(rt.alloc())?;
    want.push(0)?;
    want.reverse();
    assert!(rt; linearise(rt.alloc(), &rows)?.get(0) == Some(&want));
    for (count, class) in [(9, 0), (9, 1), (9, 5), (9, 8), (2000, 1999)] {
        let rows = rows_in(rt.alloc(), Shape::Falling(Some(class)), count)?;
        assert!(rt; are_classes(&rows));
        assert!(rt;
            linearise(rt.alloc(), &rows) == Err(LinearFault::Cyclic { class }),
            "at {class}"
        );
    }
    Ok(())
}
