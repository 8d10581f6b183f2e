//! Listeners of little and of more room.
use agg_listen::{Audience, Keep, LargeAnswers, ListListener, Listener, Told};
use std::alloc::{AllocError, Global};
use std::process::Abort;
use std::test::Fail;

/// Listeners with room for no answer, for eight and for one.
fn three_listeners(alloc: Global) -> Result<Audience<ListListener>, AllocError> {
    let mut listeners = Vec::new(alloc);
    for room in [0, 8, 1] {
        listeners.push(ListListener::new(alloc, room)?)?;
    }
    Ok(Audience::new(listeners))
}

// Tells of an answer behind another line.
fn tell(audience: &mut Audience<ListListener>, told: Told) {
    audience.pass();
    audience.tell(told.status, told.bytes);
}

// Asserts how many are left, and what the first of them heard at first and then.
fn expect_left(
    rt: &impl Abort,
    audience: &Audience<ListListener>,
    left: usize,
    first: Told,
    second: Option<Told>,
) -> Result<(), Fail> {
    let listeners = audience.listeners();
    assert_eq!(rt; listeners.len(), left);
    let Some(listener) = listeners.first() else {
        return Err(Fail::new("no listener"));
    };
    assert_eq!(rt; listener.entry(0), Some(first));
    assert_eq!(rt; listener.entry(1), second);
    Ok(())
}

#[test]
fn a_listener_without_room_leaves_and_the_others_hear(rt: HostRuntime) -> Result<(), Fail> {
    let first = Told {
        line: 2,
        status: 200,
        bytes: 265,
    };
    let second = Told {
        line: 4,
        status: 429,
        bytes: 300,
    };
    let mut audience = three_listeners(rt.alloc())?;
    tell(&mut audience, first);
    expect_left(&rt, &audience, 2, first, None)?;
    tell(&mut audience, second);
    expect_left(&rt, &audience, 1, first, Some(second))
}

// Asserts that a log hears of an answer of so many bytes, stays and keeps nothing.
fn expect_heard(rt: &impl Abort, log: &mut LargeAnswers<Vec<u8>>, line: u64, bytes: u64) {
    let told = Told {
        line,
        status: 200,
        bytes,
    };
    assert_eq!(rt; log.hear(told), Keep::Stay);
    assert_eq!(rt; log.entry(0), None);
}

#[test]
fn large_answers_are_logged_and_others_are_not(rt: HostRuntime) -> Result<(), Fail> {
    let mut log = LargeAnswers::new(Vec::new(rt.alloc()));
    for (line, bytes) in [(2, 1_048_575), (3, 1_048_576), (4, 0), (5, 2_000_000)] {
        expect_heard(&rt, &mut log, line, bytes);
    }
    let wanted = b"large answer: line 3, 1048576 bytes\nlarge answer: line 5, 2000000 bytes\n";
    assert!(rt; log.into_log().as_slice() == wanted.as_slice());
    Ok(())
}
