//! What no contract says: that calls succeed where there is memory, and hand-made lists of events.
use qh_core::{Event, Kept, Machine, Moved, SlotState, run_events};
use qh_lease::Lease;
use std::alloc::{AllocError, Global};
use std::test::Fail;

// An event, as a row of a table writes it.
#[derive(Clone, Copy, Debug)]
enum Deed {
    Grant(u32),
    GiveBack(u32, u32),
    Body(u32),
    OpenGate(u32),
    Sync,
    Ack(u32),
    Stop,
    Halt,
    Crash(&'static [u32]),
    Reopen(&'static [u32]),
}

// What a machine of two ranges answered, and how it left range 0.
#[derive(Drop)]
struct Seen {
    answers: Vec<Moved>,
    lease: Lease,
    slot: SlotState,
}

fn event_of(alloc: Global, deed: Deed) -> Result<Event, AllocError> {
    Ok(match deed {
        Deed::Grant(range) => Event::Grant { range },
        Deed::GiveBack(range, attempt) => Event::GiveBack { range, attempt },
        Deed::Body(range) => Event::Body { range },
        Deed::OpenGate(range) => Event::OpenGate { range },
        Deed::Sync => Event::Sync,
        Deed::Ack(range) => Event::Ack { range },
        Deed::Stop => Event::Stop,
        Deed::Halt => Event::Halt,
        Deed::Crash(ranges) => Event::Crash {
            kept: Kept::of(alloc, ranges)?,
        },
        Deed::Reopen(ranges) => Event::Reopen {
            kept: Kept::of(alloc, ranges)?,
        },
    })
}

fn see(alloc: Global, deeds: &[Deed]) -> Result<Seen, AllocError> {
    let mut machine = Machine::new(alloc, 2)?;
    let mut answers = Vec::new(alloc);
    for deed in deeds {
        let event = event_of(alloc, *deed)?;
        answers.push(machine.step(&event))?;
    }
    Ok(Seen {
        answers,
        lease: machine.lease_of(0),
        slot: machine.slot_of(0),
    })
}

type Row = (&'static [Deed], &'static [Moved], Lease, SlotState);

// The answers, short for the tables.
const D: Moved = Moved::Done;

const I: Moved = Moved::Illegal;

const R: Moved = Moved::Repeat;

const RUNS: [Row; 5] = [
    (
        &[
            Deed::Grant(0),
            Deed::Body(0),
            Deed::Sync,
            Deed::OpenGate(0),
            Deed::Crash(&[0]),
            Deed::Reopen(&[]),
        ],
        &[D, D, D, D, D, D],
        Lease::Acked,
        SlotState::Stored,
    ),
    (
        &[Deed::Grant(0), Deed::Body(0), Deed::OpenGate(0)],
        &[D, D, I],
        Lease::Out { attempt: 1 },
        SlotState::BodyWritten,
    ),
    (
        &[
            Deed::Grant(0),
            Deed::Body(0),
            Deed::Sync,
            Deed::OpenGate(0),
            Deed::Sync,
            Deed::Ack(0),
            Deed::Body(0),
            Deed::Ack(0),
        ],
        &[D, D, D, D, D, D, R, I],
        Lease::Acked,
        SlotState::Stored,
    ),
    (
        &[
            Deed::Grant(0),
            Deed::Halt,
            Deed::Grant(0),
            Deed::Reopen(&[]),
            Deed::Grant(0),
        ],
        &[D, D, I, D, D],
        Lease::Out { attempt: 1 },
        SlotState::Closed,
    ),
    (&[Deed::Ack(0)], &[I], Lease::Fresh, SlotState::Closed),
];

fn check_row(rt: &impl std::process::Abort, alloc: Global, row: &Row) -> Result<(), AllocError> {
    let (deeds, answers, lease, slot) = row;
    let seen = see(alloc, deeds)?;
    assert_eq!(rt; seen.answers.as_slice(), *answers, "{deeds:?}");
    assert_eq!(rt; seen.lease, *lease, "{deeds:?}");
    assert_eq!(rt; seen.slot, *slot, "{deeds:?}");
    Ok(())
}

#[test]
fn runs_end_as_told(rt: HostRuntime) -> Result<(), Fail> {
    for row in &RUNS {
        check_row(&rt, rt.alloc(), row)?;
    }
    Ok(())
}

const OUT: Lease = Lease::Out { attempt: 1 };

const OUT_AGAIN: Lease = Lease::Out { attempt: 2 };

// Each event once where it is legal and once where it is not; the last answer is the one that counts.
const TRANSITIONS: [Row; 24] = [
    (&[Deed::Grant(0)], &[D], OUT, SlotState::Closed),
    (
        &[Deed::Grant(0), Deed::Grant(0)],
        &[D, D],
        OUT_AGAIN,
        SlotState::Closed,
    ),
    (
        &[Deed::Grant(0), Deed::GiveBack(0, 1), Deed::Grant(0)],
        &[D, D, D],
        OUT_AGAIN,
        SlotState::Closed,
    ),
    (&[Deed::Grant(2)], &[I], Lease::Fresh, SlotState::Closed),
    (
        &[Deed::Grant(0), Deed::GiveBack(0, 1)],
        &[D, D],
        Lease::Returned { attempt: 1 },
        SlotState::Closed,
    ),
    (
        &[Deed::Grant(0), Deed::Grant(0), Deed::GiveBack(0, 1)],
        &[D, D, I],
        OUT_AGAIN,
        SlotState::Closed,
    ),
    (&[Deed::Body(0)], &[D], Lease::Fresh, SlotState::BodyWritten),
    (
        &[Deed::Body(0), Deed::Body(0)],
        &[D, I],
        Lease::Fresh,
        SlotState::BodyWritten,
    ),
    (
        &[Deed::Body(0), Deed::Sync, Deed::OpenGate(0)],
        &[D, D, D],
        Lease::Fresh,
        SlotState::GateWritten,
    ),
    (&[Deed::OpenGate(0)], &[I], Lease::Fresh, SlotState::Closed),
    (
        &[Deed::Body(0), Deed::Sync],
        &[D, D],
        Lease::Fresh,
        SlotState::BodySafe,
    ),
    (
        &[Deed::Body(0), Deed::Halt, Deed::Sync],
        &[D, D, I],
        Lease::Fresh,
        SlotState::BodyWritten,
    ),
    (
        &[
            Deed::Body(0),
            Deed::Sync,
            Deed::OpenGate(0),
            Deed::Sync,
            Deed::Ack(0),
        ],
        &[D, D, D, D, D],
        Lease::Acked,
        SlotState::Stored,
    ),
    (
        &[Deed::Body(0), Deed::Sync, Deed::OpenGate(0), Deed::Ack(0)],
        &[D, D, D, I],
        Lease::Fresh,
        SlotState::GateWritten,
    ),
    (
        &[Deed::Halt, Deed::Stop],
        &[D, D],
        Lease::Fresh,
        SlotState::Closed,
    ),
    (
        &[Deed::Halt, Deed::Halt],
        &[D, I],
        Lease::Fresh,
        SlotState::Closed,
    ),
    (
        &[Deed::Crash(&[]), Deed::Grant(0)],
        &[D, I],
        Lease::Fresh,
        SlotState::Closed,
    ),
    (
        &[
            Deed::Grant(0),
            Deed::Body(0),
            Deed::Sync,
            Deed::OpenGate(0),
            Deed::Crash(&[]),
        ],
        &[D, D, D, D, D],
        Lease::Fresh,
        SlotState::Closed,
    ),
    (
        &[Deed::Crash(&[]), Deed::Crash(&[])],
        &[D, I],
        Lease::Fresh,
        SlotState::Closed,
    ),
    (
        &[Deed::Body(0), Deed::Sync, Deed::Crash(&[0])],
        &[D, D, I],
        Lease::Fresh,
        SlotState::BodySafe,
    ),
    (
        &[Deed::Grant(0), Deed::Crash(&[2])],
        &[D, I],
        OUT,
        SlotState::Closed,
    ),
    (
        &[
            Deed::Body(0),
            Deed::Sync,
            Deed::OpenGate(0),
            Deed::Reopen(&[0]),
        ],
        &[D, D, D, D],
        Lease::Acked,
        SlotState::Stored,
    ),
    (
        &[Deed::Grant(0), Deed::Reopen(&[])],
        &[D, D],
        Lease::Fresh,
        SlotState::Closed,
    ),
    (
        &[Deed::Grant(0), Deed::Reopen(&[1])],
        &[D, I],
        OUT,
        SlotState::Closed,
    ),
];

#[test]
fn each_event_is_legal_where_the_table_says(rt: HostRuntime) -> Result<(), Fail> {
    for row in &TRANSITIONS {
        check_row(&rt, rt.alloc(), row)?;
    }
    Ok(())
}

#[test]
fn a_range_is_granted_sixteen_times(rt: HostRuntime) -> Result<(), Fail> {
    let mut answers = [D; 17];
    answers[16] = I;
    let seen = see(rt.alloc(), &[Deed::Grant(0); 17])?;
    assert_eq!(rt; seen.answers.as_slice(), answers.as_slice());
    assert_eq!(rt; seen.lease, Lease::Out { attempt: 16 });
    Ok(())
}

#[test]
fn events_run_from_the_start(rt: HostRuntime) -> Result<(), Fail> {
    let kept = Kept::of(rt.alloc(), &[0])?;
    let none = Kept::of(rt.alloc(), &[])?;
    let events = [
        Event::Grant { range: 0 },
        Event::Body { range: 0 },
        Event::Sync,
        Event::OpenGate { range: 0 },
        Event::Crash { kept },
        Event::Reopen { kept: none },
    ];
    let machine = run_events(rt.alloc(), 1, &events)?;
    assert_eq!(rt; machine.lease_of(0), Lease::Acked);
    assert_eq!(rt; machine.slot_of(0), SlotState::Stored);
    assert!(rt; machine.is_up());
    assert!(rt; !machine.is_halted());
    Ok(())
}
