//! Ranges of small circuits, with and without a checkpoint, a range that is over, and circuits wider than a whole state.
ghost use Rattle.std.specs.Prelude.{◌≡◌, ◌<◌, ◌≤◌, ◌^◌, All, IsTrue, length};
ghost use Rattle.std.specs.Arc.{arc_value};
ghost use Rattle.qh_plan.specs.Plans.{AreBits};

use qh_gates::{Circuit, Gate, Kind, arity};
use qh_half::Steps;
use qh_plan::{Job, Verdict, plan};
use qh_prefix::{Checkpoint, make_checkpoint};
use qh_range::{RangeResult, Room, Ticket, evaluate};
use qh_ring::Omega;
use std::alloc::{AllocError, Global};
use std::marker::Brand;
use std::process::Abort;
use std::sync::Arc;
use std::sync::ledger::{Blank, Ledger};
use std::test::Fail;

/// A time, a kind and two qubits.
type Row = (u32, Kind, u32, u32);

/// No gate crosses.
const HADAMARD: [Row; 1] = [(0, Kind::H, 0, 0)];

const BELL: [Row; 2] = [(0, Kind::H, 0, 0), (1, Kind::Cnot, 0, 1)];

const TWO: [Row; 5] = [
    (0, Kind::H, 0, 0),
    (0, Kind::H, 1, 1),
    (1, Kind::Cz, 0, 1),
    (2, Kind::H, 0, 0),
    (3, Kind::Cz, 0, 1),
];

const SWAPPED: [Row; 2] = [(0, Kind::X, 0, 0), (1, Kind::Is, 0, 1)];

/// Qubits 0 and 2 against qubit 1: a gate inside part 1, and a crossing gate whose first qubit lies in part 2.
const THREE: [Row; 4] = [
    (0, Kind::X, 0, 0),
    (1, Kind::Cnot, 0, 2),
    (2, Kind::H, 1, 1),
    (3, Kind::Cnot, 1, 2),
];

/// The circuit of these gates.
fn circuit_of(
    rt: &impl Abort,
    alloc: Global,
    qubits: u32,
    rows: &[Row],
) -> Result<Circuit, AllocError> {
    assert!(rt; 1 <= qubits && qubits <= 40);
    let mut circuit = Circuit::start(alloc, qubits);
    for (time, kind, q0, q1) in rows {
        let next = Gate {
            time: *time,
            kind: *kind,
            q0: *q0,
            q1: *q1,
        };
        assert!(rt; arity(next.kind) == 2 || next.q0 == next.q1);
        assert!(rt; circuit.check(&next).is_ok());
        circuit.push(next)?;
    }
    Ok(circuit)
}

/// Whether these may be asked.
fn are_bits(qubits: u32, bits: &[u64]) -> bool
    requires { qubits ≤ 40 }
    ensures { IsTrue result → AreBits qubits bits.now }
{
    1 <= bits.len() && bits.len() <= 4096 && bits.iter().all(|b| *b < 1 << qubits)
}

/// The job over the circuit, cut into these qubits and the others.
fn job_of(
    rt: &impl Abort,
    alloc: Global,
    circuit: Circuit,
    part: &[u32],
    split: (u32, u32),
    w: Option<u32>,
    bits: Vec<u64>,
) -> Result<Arc<Job>, Fail> {
    assert!(rt; are_bits(circuit.qubits(), &bits));
    let job = plan(alloc, circuit, part, split.0, split.1, w, bits)?;
    Ok(Arc::new(alloc, job)?)
}

/// Compares the third attempt at a range with the wanted sums, or with the wanted path that is over.
fn compare(
    rt: &impl Abort,
    job: &Arc<Job>,
    range: u32,
    given: RangeResult,
    wanted: Result<&[Omega], u64>,
) -> Result<(), Fail> {
    assert_eq!(rt; (given.range(), given.attempt()), (range, 3));
    assert!(rt; given.job().same(job));
    match (&given.into_verdict(), wanted) {
        (Verdict::Sum(sums), Ok(wanted)) => assert_eq!(rt; sums.values(), wanted),
        (Verdict::Over { path }, Err(wanted)) => assert_eq!(rt; *path, wanted),
        (Verdict::Sum(_), Err(wanted)) => assert!(rt; false, "path {wanted} is not over"),
        (Verdict::Over { path }, Ok(_)) => assert!(rt; false, "over at {path}"),
    }
    Ok(())
}

/// Evaluates a range without a checkpoint, and compares it.
fn check<L: Ledger>(
    rt: &impl Abort,
    alloc: Global,
    job: &Arc<Job>,
    range: u32,
    wanted: Result<&[Omega], u64>,
    steps: &mut Steps<L>,
) -> Result<(), Fail> {
    assert!(rt; range < job.ranges());
    let result = evaluate(alloc, job, &Ticket::new(range, 3), None, steps)?;
    compare(rt, job, range, result, wanted)
}

fn whole(a: i128) -> Omega {
    Omega { a, ..Omega::ZERO }
}

fn wholes(a: i128, b: i128, c: i128, d: i128) -> [Omega; 4] {
    [whole(a), whole(b), whole(c), whole(d)]
}

/// The sums over the paths of each range, at the bitstrings 00, 10, 01 and 11.
fn run_pairs<L: Ledger>(rt: &impl Abort, alloc: Global, steps: &mut Steps<L>) -> Result<(), Fail> {
    let i = Omega {
        c: 1,
        ..Omega::ZERO
    };
    let none = Omega::ZERO;
    for (rows, part, split, w, range, wanted) in [
        (BELL.as_slice(), 0, (0, 0), None, 0, wholes(1, 0, 0, 1)),
        (BELL.as_slice(), 1, (0, 0), None, 0, wholes(1, 0, 0, 1)),
        (SWAPPED.as_slice(), 0, (1, 0), None, 3, [none; 4]),
        (
            SWAPPED.as_slice(),
            0,
            (0, 0),
            None,
            0,
            [none, none, i, none],
        ),
        (
            SWAPPED.as_slice(),
            1,
            (0, 0),
            None,
            0,
            [none, none, i, none],
        ),
        (TWO.as_slice(), 0, (1, 0), None, 0, wholes(1, 1, 1, -1)),
        (TWO.as_slice(), 0, (1, 0), None, 1, wholes(1, -1, -1, -1)),
        (TWO.as_slice(), 0, (1, 0), Some(1), 0, wholes(1, -1, -1, -1)),
        (TWO.as_slice(), 1, (0, 1), Some(0), 1, wholes(1, -1, -1, -1)),
        (TWO.as_slice(), 0, (1, 1), None, 3, wholes(0, -1, 0, -1)),
        (TWO.as_slice(), 0, (0, 0), None, 0, wholes(2, 0, 0, -2)),
        (HADAMARD.as_slice(), 0, (0, 0), None, 0, wholes(1, 1, 0, 0)),
    ] {
        let circuit = circuit_of(rt, alloc, 2, rows)?;
        let bits = Vec::from_array(alloc, [0, 1, 2, 3])?;
        let job = job_of(rt, alloc, circuit, &[part], split, w, bits)?;
        check(rt, alloc, &job, range, Ok(wanted.as_slice()), steps)?;
    }
    Ok(())
}

/// Evaluates a range of two qubits without a checkpoint, from one, and from one in a room, and compares all three.
fn check_from<L: Ledger>(
    rt: &impl Abort,
    alloc: Global,
    job: &Arc<Job>,
    room: &mut Room,
    point: &Checkpoint,
    range: u32,
    wanted: [Omega; 4],
    steps: &mut Steps<L>,
) -> Result<(), Fail>
    requires { room.old ≡ arc_value job.now }
    ensures { room.new ≡ room.old }
{
    let wanted = Ok(wanted.as_slice());
    check(rt, alloc, job, range, wanted, steps)?;
    assert!(rt; range < job.ranges() && point.is_for(job, job.prefix_of(range)));
    let ticket = Ticket::new(range, 3);
    let result = evaluate(alloc, job, &ticket, Some(point), steps)?;
    compare(rt, job, range, result, wanted)?;
    let result = room.evaluate(alloc, &ticket, point, steps)?;
    compare(rt, job, range, result, wanted)
}

/// A root gate and no prefix gate: one checkpoint and one room serve both ranges.
fn run_from_checkpoint<L: Ledger>(
    rt: &impl Abort,
    alloc: Global,
    steps: &mut Steps<L>,
) -> Result<(), Fail> {
    let circuit = circuit_of(rt, alloc, 2, &TWO)?;
    let bits = Vec::from_array(alloc, [0, 1, 2, 3])?;
    let job = job_of(rt, alloc, circuit, &[0], (0, 1), None, bits)?;
    assert!(rt; 0 < job.prefixes());
    let point = make_checkpoint(alloc, &job, 0, steps)?;
    let mut room = Room::new(alloc, &job)?;
    let first = wholes(1, 1, 1, -1);
    check_from(rt, alloc, &job, &mut room, &point, 0, first, steps)?;
    let second = wholes(1, -1, -1, -1);
    check_from(rt, alloc, &job, &mut room, &point, 1, second, steps)
}

/// Some gates, and then this many `h` on qubit 0.
fn then_h(alloc: Global, rows: &[Row], count: u32) -> Result<Vec<Row>, AllocError> {
    let mut all = Vec::from_slice(alloc, rows)?;
    for time in 0..count {
        all.push((time.wrapping_add(9), Kind::H, 0, 0))?;
    }
    Ok(all)
}

/// The least path that is over, by its products at 2^92 or by a half at 2^126.
fn run_over<L: Ledger>(rt: &impl Abort, alloc: Global, steps: &mut Steps<L>) -> Result<(), Fail> {
    let cz = |time| (time, Kind::Cz, 0, 1);
    let x = (0, Kind::X, 0, 0);
    let top = whole(1 << 91);
    let none = Omega::ZERO;
    for (rows, count, bits, p, range, wanted) in [
        ([].as_slice(), 182, [0, 1], 0, 0, Ok([top, none])),
        ([].as_slice(), 184, [0, 1], 0, 0, Err(0)),
        ([].as_slice(), 184, [1, 3], 0, 0, Ok([none; 2])),
        ([].as_slice(), 251, [2, 3], 0, 0, Ok([none; 2])),
        ([].as_slice(), 252, [2, 3], 0, 0, Err(0)),
        ([].as_slice(), 255, [2, 3], 0, 0, Err(0)),
        ([cz(1), cz(2)].as_slice(), 184, [0, 1], 0, 0, Err(0)),
        ([x, cz(1)].as_slice(), 184, [0, 1], 0, 0, Err(1)),
        ([x, cz(1), cz(2)].as_slice(), 184, [0, 1], 0, 0, Err(3)),
        (
            [x, cz(1), cz(2)].as_slice(),
            184,
            [0, 1],
            1,
            0,
            Ok([none; 2]),
        ),
        ([x, cz(1), cz(2)].as_slice(), 184, [0, 1], 1, 1, Err(3)),
    ] {
        let all = then_h(alloc, rows, count)?;
        let circuit = circuit_of(rt, alloc, 2, &all)?;
        let bits = Vec::from_array(alloc, bits)?;
        let job = job_of(rt, alloc, circuit, &[0], (p, 0), None, bits)?;
        match wanted {
            Ok(sums) => check(rt, alloc, &job, range, Ok(sums.as_slice()), steps)?,
            Err(path) => check(rt, alloc, &job, range, Err(path), steps)?,
        }
    }
    Ok(())
}

/// A part whose qubits are not next to each other, and 24 qubits, whose whole state would take 1 GiB.
fn run_wider<L: Ledger>(rt: &impl Abort, alloc: Global, steps: &mut Steps<L>) -> Result<(), Fail> {
    let circuit = circuit_of(rt, alloc, 3, &THREE)?;
    let bits = Vec::from_array(alloc, [0, 1, 3, 5])?;
    let job = job_of(rt, alloc, circuit, &[2, 0], (0, 0), None, bits)?;
    check(rt, alloc, &job, 0, Ok(wholes(0, 0, 1, 1).as_slice()), steps)?;

    let mut rows = Vec::new(alloc);
    let mut part = Vec::new(alloc);
    for q in 0..24 {
        rows.push((0, Kind::H, q, q))?;
        if q < 12 {
            part.push(q)?;
        }
    }
    rows.push((1, Kind::Cz, 11, 12))?;
    rows.push((2, Kind::Cz, 0, 23))?;
    let circuit = circuit_of(rt, alloc, 24, &rows)?;
    let ones = (1 << 24) - 1;
    let bits = Vec::from_array(alloc, [0, ones, 1 << 11 | 1 << 12])?;
    let job = job_of(rt, alloc, circuit, &part, (0, 0), None, bits)?;
    let wanted = [whole(1), whole(1), whole(-1)];
    check(rt, alloc, &job, 0, Ok(wanted.as_slice()), steps)
}

fn run_all<L: Ledger>(rt: &impl Abort, alloc: Global, blank: Blank) -> Result<(), Fail>
    requires name { blank.name ≡ L.name }
    requires parts { blank.parts ≡ L.parts }
    requires some { 0 < blank.parts }
{
    let mut steps = Steps::<L>::new(blank);
    run_pairs(rt, alloc, &mut steps)?;
    run_from_checkpoint(rt, alloc, &mut steps)?;
    run_over(rt, alloc, &mut steps)?;
    run_wider(rt, alloc, &mut steps)
}

#[test]
fn gives_the_value_of_a_range(rt: HostRuntime) -> Result<(), Fail> {
    run_all::<Brand>(&rt, rt.alloc(), Blank::new(1))
}
