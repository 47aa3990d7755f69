use crate::task::{Task, Tasks};
use crate::trio::trio_of;
use runs::{Ending, NoMemory, Turn, ending_of, given, reported_cycle, round_robin, run};
use std::alloc::Global;
use std::test::Fail;

// Turns, as in `turns![1 2, 3 1]`.
macro_rules! turns {
    ($($thread:literal $count:literal),*) => {
        &[$(Turn { thread: $thread, count: $count }),*]
    };
}

// The tasks of threads 1, 2 and 3.
macro_rules! tasks {
    ($one:expr, $two:expr, $three:expr) => {
        Tasks {
            one: $one,
            two: $two,
            three: $three,
        }
    };
}

const NONE: Task = Task::Count { left: 0 };

const ONE: Task = Task::Count { left: 1 };

const THREE: Task = Task::Count { left: 3 };

const BROKEN: Task = Task::Breaks { left: 0 };

const BREAKS: Task = Task::Breaks { left: 1 };

const AWAITS_1: Task = Task::Await { thread: 1 };

const AWAITS_2: Task = Task::Await { thread: 2 };

type Robin<'a> = (Tasks, u32, u32, &'a [Turn], Ending);

fn is_robin(alloc: Global, case: Robin) -> Result<bool, NoMemory> {
    let (tasks, quantum, budget, schedule, ending) = case;
    if quantum == 0 {
        return Ok(false);
    }
    let ran = round_robin(alloc, trio_of(tasks), quantum, budget)?;
    Ok(ran.schedule.as_slice() == schedule && ran.ending == ending)
}

#[test]
fn robins(rt: HostRuntime) -> Result<(), Fail> {
    let mixed = tasks!(THREE, AWAITS_1, ONE);
    let cases: [Robin; 11] = [
        (
            mixed,
            1,
            9,
            turns![1 1, 3 1, 1 1, 1 1, 2 1],
            Ending::Finished,
        ),
        (mixed, 2, 9, turns![1 2, 3 1, 1 1, 2 1], Ending::Finished),
        (mixed, 2, 5, turns![1 2, 3 1, 1 1, 2 1], Ending::Finished),
        (mixed, 2, 1, turns![1 1], Ending::Budget),
        (mixed, 2, 0, &[], Ending::Budget),
        (
            tasks!(AWAITS_2, AWAITS_1, ONE),
            1,
            9,
            turns![3 1],
            Ending::Deadlock,
        ),
        (
            tasks!(AWAITS_2, ONE, BROKEN),
            1,
            9,
            turns![2 1],
            Ending::Stuck { thread: 3 },
        ),
        (
            tasks!(ONE, BROKEN, BROKEN),
            1,
            1,
            turns![1 1],
            Ending::Stuck { thread: 2 },
        ),
        // a thread that is stuck in its own turn, also where the budget is reached, and one that is stuck behind it
        (
            tasks!(BREAKS, THREE, NONE),
            2,
            9,
            turns![1 1],
            Ending::Stuck { thread: 1 },
        ),
        (
            tasks!(BREAKS, THREE, NONE),
            2,
            1,
            turns![1 1],
            Ending::Stuck { thread: 1 },
        ),
        (
            tasks!(BREAKS, THREE, NONE),
            1,
            9,
            turns![1 1, 2 1],
            Ending::Stuck { thread: 1 },
        ),
    ];
    for case in cases {
        assert!(rt; is_robin(rt.alloc(), case)?, "{:?}", case.3);
    }
    Ok(())
}

type Row<'a> = (Tasks, &'a [Turn], u32, &'a [Turn], Ending);

fn is_given(alloc: Global, case: Row) -> Result<bool, NoMemory> {
    let (tasks, turns, budget, schedule, ending) = case;
    let ran = given(alloc, trio_of(tasks), turns, budget)?;
    Ok(ran.schedule.as_slice() == schedule && ran.ending == ending)
}

#[test]
fn given_turns(rt: HostRuntime) -> Result<(), Fail> {
    let mixed = tasks!(THREE, AWAITS_1, ONE);
    let cases: [Row; 7] = [
        // turns that make no move, and one that makes fewer than it may
        (
            mixed,
            turns![2 9, 1 2, 1 0, 3 4294967295],
            9,
            turns![1 2, 3 1, 1 1, 2 1],
            Ending::Finished,
        ),
        (
            mixed,
            turns![2 1, 1 1, 4 1],
            9,
            turns![1 1],
            Ending::BadTurn { index: 2 },
        ),
        (mixed, turns![0 1], 9, &[], Ending::BadTurn { index: 0 }),
        // the run is over before the bad turn
        (
            tasks!(NONE, ONE, NONE),
            turns![2 1, 4 1],
            9,
            turns![2 1],
            Ending::Finished,
        ),
        (mixed, turns![1 3, 4 1], 2, turns![1 2], Ending::Budget),
        (
            tasks!(ONE, BROKEN, NONE),
            turns![1 1, 2 1, 4 1],
            9,
            turns![1 1],
            Ending::Stuck { thread: 2 },
        ),
        // a turn that has made all its moves is over
        (
            tasks!(BREAKS, ONE, NONE),
            turns![1 1, 2 1, 1 2, 2 1],
            9,
            turns![1 1, 2 1],
            Ending::Stuck { thread: 1 },
        ),
    ];
    for case in cases {
        assert!(rt; is_given(rt.alloc(), case)?, "{:?}", case.1);
    }
    Ok(())
}

#[test]
fn runs(rt: HostRuntime) -> Result<(), Fail> {
    let first = tasks!(THREE, AWAITS_1, ONE);
    let ran = run(
        rt.alloc(),
        trio_of(first),
        turns![1 2, 2 4294967295, 7 1, 1 9, 2 1],
    )?;
    assert_eq!(rt; ran.now, tasks!(NONE, NONE, ONE));
    assert_eq!(rt; ending_of(&ran), None);
    Ok(())
}

fn reports(alloc: Global, waits: &[Option<u32>], threads: &[u32]) -> Result<bool, NoMemory> {
    match reported_cycle(alloc, waits)? {
        Some(cycle) => Ok(cycle.as_slice() == threads),
        None => Ok(threads.is_empty()),
    }
}

#[test]
fn cycles(rt: HostRuntime) -> Result<(), Fail> {
    let cases: [(&[Option<u32>], &[u32]); 9] = [
        (&[], &[]),
        (&[Some(1)], &[1]),
        (&[Some(2), None], &[]),
        (&[Some(9), Some(0)], &[]),
        (&[Some(2), Some(3), Some(2)], &[2, 3]),
        (&[Some(3), Some(1), Some(2)], &[1, 3, 2]),
        (&[Some(4), Some(4), Some(1), Some(3)], &[1, 4, 3]),
        // thread 1 leads to another cycle than the one with the least thread
        (&[Some(5), Some(4), None, Some(2), Some(5)], &[2, 4]),
        (
            &[Some(4), Some(4), None, Some(6), Some(4), Some(5)],
            &[4, 6, 5],
        ),
    ];
    for (waits, threads) in cases {
        assert!(rt; reports(rt.alloc(), waits, threads)?, "{threads:?}");
    }
    Ok(())
}
