ghost use Rattle.std.specs.Prelude.{◌≡◌, ◌<◌, true, length};
ghost use Rattle.std.specs.List.{All};

use super::{Act, Once, Pos, Proto, Stepped};
use std::test::Fail;

/// Whether there is each accessor of these acts.
fn are_there(p: &Proto, acts: &[(u32, Act)]) -> bool
    ensures { result ≡ true → All (λ a. a.0 < length p.now.at) acts.now }
{
    for given in acts {
        let (who, _) = *given;
        if who as usize >= p.accessors() {
            return false;
        }
    }
    true
}

/// Makes the acts in their order, and returns how many moved.
fn moved(p: &mut Proto, acts: &[(u32, Act)]) -> u32 {
    if are_there(p, acts) && acts.len() <= p.spare() as usize {
        p.run(acts)
    } else {
        0
    }
}

fn stands(p: &Proto, who: u32) -> Option<Pos> {
    if (who as usize) < p.accessors() {
        Some(p.position(who))
    } else {
        None
    }
}

fn first_cell(p: &Proto) -> Option<Once> {
    if p.cells() > 0 {
        Some(p.abstract_of(0))
    } else {
        None
    }
}

/// What comes of an act where there is room for a latch.
fn answer(p: &mut Proto, who: u32, act: Act) -> Option<Stepped> {
    if (who as usize) < p.accessors() && p.spare() > 0 {
        Some(p.step(who, act))
    } else {
        None
    }
}

const CLAIMED: [(u32, Act); 3] = [(0, Act::Read(0)), (0, Act::Go), (0, Act::Go)];

/// Accessor 1 installs a latch, waits, and is woken when accessor 0 has stored 7.
const AWAITED: [(u32, Act); 18] = [
    (0, Act::Read(0)),
    (0, Act::Go),
    (0, Act::Go),
    (1, Act::Read(0)),
    (1, Act::Go),
    (1, Act::Go),
    (1, Act::Go),
    (1, Act::Go),
    (1, Act::Go),
    (1, Act::Go),
    (0, Act::Return(7)),
    (0, Act::Go),
    (0, Act::Go),
    (0, Act::Go),
    (0, Act::Go),
    (1, Act::Go),
    (1, Act::Go),
    (1, Act::Go),
];

#[test]
fn a_reader_sleeps_until_the_value_is_stored(rt: HostRuntime) -> Result<(), Fail> {
    let mut p = Proto::new(rt.alloc(), 1, &[1, 2])?;
    p.reserve(20)?;
    p.reserve(5)?;
    assert_eq!(rt; p.spare(), 20);
    assert_eq!(rt; moved(&mut p, &AWAITED), 15);
    assert_eq!(rt; stands(&p, 0), Some(Pos::Got(7)));
    assert_eq!(rt; stands(&p, 1), Some(Pos::Got(7)));
    assert_eq!(rt; first_cell(&p), Some(Once::Done(7)));
    assert_eq!(rt; p.latches(), 1);
    assert_eq!(rt; p.spare(), 19);
    Ok(())
}

#[test]
fn a_thread_that_meets_itself_gets_lazy_cycle(rt: HostRuntime) -> Result<(), Fail> {
    let mut p = Proto::new(rt.alloc(), 1, &[1, 1])?;
    p.reserve(20)?;
    assert_eq!(rt; moved(&mut p, &CLAIMED), 3);
    assert_eq!(rt; moved(&mut p, &[(1, Act::Read(0)), (1, Act::Go)]), 2);
    assert_eq!(rt; stands(&p, 1), Some(Pos::Cycle));
    Ok(())
}

#[test]
fn a_failed_initialiser_is_tried_again(rt: HostRuntime) -> Result<(), Fail> {
    let mut p = Proto::new(rt.alloc(), 1, &[1, 2])?;
    p.reserve(20)?;
    assert_eq!(rt; moved(&mut p, &CLAIMED), 3);
    assert_eq!(rt; moved(&mut p, &[(0, Act::Throw), (0, Act::Go)]), 2);
    assert_eq!(rt; stands(&p, 0), Some(Pos::Failed));
    assert_eq!(rt; first_cell(&p), Some(Once::Empty));
    assert_eq!(rt;
        moved(&mut p, &[(1, Act::Read(0)), (1, Act::Go), (1, Act::Go)]),
        3
    );
    assert_eq!(rt; first_cell(&p), Some(Once::Running(1)));
    Ok(())
}

#[test]
fn acts_are_refused_where_they_cannot_be_made(rt: HostRuntime) -> Result<(), Fail> {
    let mut p = Proto::new(rt.alloc(), 1, &[1, 2])?;
    p.reserve(20)?;
    assert_eq!(rt; moved(&mut p, &CLAIMED), 3);
    for (who, act, want) in [
        (0, Act::Go, Stepped::Wrong),
        (0, Act::Read(0), Stepped::Wrong),
        (1, Act::Go, Stepped::Wrong),
        (1, Act::Return(3), Stepped::Wrong),
        (1, Act::Throw, Stepped::Wrong),
        (1, Act::Read(1), Stepped::Wrong),
        (1, Act::Read(0), Stepped::Moved),
        (1, Act::Read(0), Stepped::Wrong),
        (0, Act::Return(7), Stepped::Moved),
        (0, Act::Return(7), Stepped::Wrong),
    ] {
        assert_eq!(rt; answer(&mut p, who, act), Some(want));
    }
    Ok(())
}
