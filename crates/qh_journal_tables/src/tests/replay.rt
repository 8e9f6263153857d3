//! What no contract says: that calls succeed where there is memory, and hand-made courses.
use qh_core::{Course, Noted};
use qh_lease::Lease;
use qh_limits::MAX_GRANTS;
use std::process::Abort;
use std::test::Fail;

// A call, as a row of a table writes it.
#[derive(Clone, Copy, Debug)]
enum Call {
    Begin(u32),
    Grant(u32),
    GiveBack(u32, u32),
    Acknowledge(u32, u32),
    Halt(u64),
}

fn begin(course: &mut Course, range: u32) -> bool {
    if course.fault().is_some() || range >= course.ranges() {
        return false;
    }
    if !course.history().is_empty() || course.lease(range) != Lease::Fresh {
        return false;
    }
    course.begin(range);
    true
}

fn grant(course: &mut Course, range: u32) -> bool {
    if course.fault().is_some() || range >= course.ranges() {
        return false;
    }
    if !course.lease(range).may_grant() {
        return false;
    }
    course.grant(range);
    true
}

fn acknowledge(course: &mut Course, range: u32, attempt: u32) -> bool {
    if course.fault().is_some() || range >= course.ranges() || attempt > MAX_GRANTS {
        return false;
    }
    if course.lease(range) == Lease::Acked {
        return false;
    }
    course.acknowledge(range, attempt);
    true
}

fn halt(course: &mut Course, faults: u64) -> bool {
    if course.fault().is_some() {
        return false;
    }
    course.halt(faults);
    true
}

// Makes a call where it may be made, and answers whether it was and took effect.
fn make(course: &mut Course, call: Call) -> bool {
    match call {
        Call::Begin(range) => begin(course, range),
        Call::Grant(range) => grant(course, range),
        Call::GiveBack(range, attempt) => course.give_back(range, attempt),
        Call::Acknowledge(range, attempt) => acknowledge(course, range, attempt),
        Call::Halt(faults) => halt(course, faults),
    }
}

// The calls of the rows, each made or not as its row says.
fn play(rt: &impl Abort, course: &mut Course, rows: &[(Call, bool)]) {
    for (call, made) in rows {
        assert_eq!(rt; make(course, *call), *made, "{call:?}");
    }
}

#[test]
fn two_ranges_are_acknowledged(rt: HostRuntime) -> Result<(), Fail> {
    let mut course = Course::new(rt.alloc(), 2)?;
    let rows = [
        (Call::Grant(0), true),
        (Call::Grant(1), true),
        (Call::Grant(0), true),
        (Call::Acknowledge(0, 2), true),
        (Call::Grant(0), false),
        (Call::Acknowledge(0, 1), false),
    ];
    play(&rt, &mut course, &rows);
    assert_eq!(rt; course.next_open(0), Some(1));
    assert!(rt; !course.is_finished());
    play(&rt, &mut course, &[(Call::Acknowledge(1, 1), true)]);
    assert_eq!(rt; course.next_open(0), None);
    assert!(rt; course.is_finished());
    let history = [
        Noted::Granted {
            range: 0,
            attempt: 1,
        },
        Noted::Granted {
            range: 1,
            attempt: 1,
        },
        Noted::Granted {
            range: 0,
            attempt: 2,
        },
        Noted::Acked {
            range: 0,
            attempt: 2,
        },
        Noted::Acked {
            range: 1,
            attempt: 1,
        },
    ];
    assert_eq!(rt; course.history(), history.as_slice());
    Ok(())
}

#[test]
fn stored_ranges_have_no_entry(rt: HostRuntime) -> Result<(), Fail> {
    let mut course = Course::new(rt.alloc(), 3)?;
    let rows = [
        (Call::Begin(1), true),
        (Call::Begin(1), false),
        (Call::Grant(1), false),
        (Call::Grant(0), true),
        (Call::Begin(2), false),
        (Call::GiveBack(0, 2), false),
        (Call::GiveBack(0, 1), true),
        (Call::GiveBack(3, 1), false),
        (Call::Acknowledge(1, 1), false),
    ];
    play(&rt, &mut course, &rows);
    assert_eq!(rt; course.next_fresh(), Some(2));
    play(&rt, &mut course, &[(Call::Acknowledge(2, 0), true)]);
    assert_eq!(rt; course.next_fresh(), None);
    assert_eq!(rt; course.next_returned(), Some(0));
    assert_eq!(rt; course.next_out(0), None);
    assert_eq!(rt; course.next_open(0), Some(0));
    assert_eq!(rt; course.next_open(1), None);
    let history = [
        Noted::Granted {
            range: 0,
            attempt: 1,
        },
        Noted::Back {
            range: 0,
            attempt: 1,
        },
        Noted::Acked {
            range: 2,
            attempt: 0,
        },
    ];
    assert_eq!(rt; course.history(), history.as_slice());
    Ok(())
}

#[test]
fn a_range_has_at_most_33_entries(rt: HostRuntime) -> Result<(), Fail> {
    let mut course = Course::new(rt.alloc(), 1)?;
    for attempt in 1..=16 {
        play(
            &rt,
            &mut course,
            &[(Call::Grant(0), true), (Call::GiveBack(0, attempt), true)],
        );
    }
    let rows = [
        (Call::Grant(0), false),
        (Call::GiveBack(0, 16), false),
        (Call::Acknowledge(0, 17), false),
        (Call::Acknowledge(0, 16), true),
        (Call::Halt(3), true),
        (Call::Halt(4), false),
    ];
    play(&rt, &mut course, &rows);
    assert_eq!(rt; course.history().len(), 34);
    assert_eq!(rt;
        course.history().last().copied(),
        Some(Noted::Halted { faults: 3 })
    );
    assert_eq!(rt; course.fault(), Some(3));
    Ok(())
}

#[test]
fn a_halted_run_takes_nothing_back(rt: HostRuntime) -> Result<(), Fail> {
    let mut course = Course::new(rt.alloc(), 16_384)?;
    let rows = [
        (Call::Grant(16_383), true),
        (Call::Halt(1), true),
        (Call::GiveBack(16_383, 1), false),
        (Call::Grant(0), false),
        (Call::Acknowledge(16_383, 1), false),
        (Call::Begin(0), false),
    ];
    play(&rt, &mut course, &rows);
    assert_eq!(rt; course.ranges(), 16_384);
    assert_eq!(rt; course.lease(16_383), Lease::Out { attempt: 1 });
    assert_eq!(rt; course.history().len(), 2);
    Ok(())
}
