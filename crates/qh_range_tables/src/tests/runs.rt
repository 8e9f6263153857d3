//! Whole runs of small circuits, and one that is over.
ghost use Rattle.std.specs.Prelude.{◌≡◌, ◌<◌, ◌≤◌, IsTrue};
ghost use Rattle.qh_plan.specs.Plans.{AreBits};

use qh_gates::{Circuit, Gate, Kind, arity};
use qh_half::Steps;
use qh_plan::{Job, plan};
use qh_range::{Solved, solve};
use std::alloc::{AllocError, Global};
use std::marker::Brand;
use std::process::Abort;
use std::sync::Arc;
use std::sync::ledger::{Blank, Ledger};
use std::test::Fail;

/// A time, a kind and two qubits.
type Row = (u32, Kind, u32, u32);

const BELL: [Row; 2] = [(0, Kind::H, 0, 0), (1, Kind::Cnot, 0, 1)];

const TWO: [Row; 5] = [
    (0, Kind::H, 0, 0),
    (0, Kind::H, 1, 1),
    (1, Kind::Cz, 0, 1),
    (2, Kind::H, 0, 0),
    (3, Kind::Cz, 0, 1),
];

/// The circuit of two qubits with these gates.
fn circuit_of(rt: &impl Abort, alloc: Global, rows: &[Row]) -> Result<Circuit, AllocError> {
    let mut circuit = Circuit::start(alloc, 2);
    for (time, kind, q0, q1) in rows {
        let next = Gate {
            time: *time,
            kind: *kind,
            q0: *q0,
            q1: *q1,
        };
        assert!(rt; arity(next.kind) == 2 || next.q0 == next.q1);
        assert!(rt; circuit.check(&next).is_ok());
        circuit.push(next)?;
    }
    Ok(circuit)
}

/// Whether these may be asked.
fn are_bits(qubits: u32, bits: &[u64]) -> bool
    requires { qubits ≤ 40 }
    ensures { IsTrue result → AreBits qubits bits.now }
{
    1 <= bits.len() && bits.len() <= 4096 && bits.iter().all(|b| *b < 1 << qubits)
}

/// Runs the gates, cut between qubits 0 and 1, for the strings 00, 10, 01 and 11, and compares the lines or the path.
fn check<L: Ledger>(
    rt: &impl Abort,
    alloc: Global,
    rows: &[Row],
    split: (u32, u32, Option<u32>),
    wanted: Result<&[u8], u64>,
    steps: &mut Steps<L>,
) -> Result<(), Fail> {
    let circuit = circuit_of(rt, alloc, rows)?;
    let bits = Vec::from_array(alloc, [0u64, 1, 2, 3])?;
    assert!(rt; are_bits(circuit.qubits(), &bits));
    let job = plan(alloc, circuit, &[0], split.0, split.1, split.2, bits)?;
    let job = Arc::new(alloc, job)?;
    match (&solve(alloc, &job, steps)?, wanted) {
        (Solved::Lines(lines), Ok(wanted)) => assert_eq!(rt; lines.as_bytes(), wanted),
        (Solved::Overflow { path }, Err(wanted)) => assert_eq!(rt; *path, wanted),
        (Solved::Lines(_), Err(wanted)) => assert!(rt; false, "path {wanted} is not over"),
        (Solved::Overflow { path }, Ok(_)) => assert!(rt; false, "over at {path}"),
    }
    Ok(())
}

fn run_all<L: Ledger>(rt: &impl Abort, alloc: Global, blank: Blank) -> Result<(), Fail>
    requires name { blank.name ≡ L.name }
    requires parts { blank.parts ≡ L.parts }
    requires some { 0 < blank.parts }
{
    let mut steps = Steps::<L>::new(blank);
    let bell = b"00 1 0 0 0 1\n10 0 0 0 0 0\n01 0 0 0 0 0\n11 1 0 0 0 1\n";
    check(rt, alloc, &BELL, (0, 0, None), Ok(bell), &mut steps)?;
    check(rt, alloc, &BELL, (0, 1, None), Ok(bell), &mut steps)?;
    let first = b"00 1 0 0 0 3\n10 1 0 0 0 3\n01 1 0 0 0 3\n11 -1 0 0 0 3\n";
    check(rt, alloc, &TWO, (1, 0, Some(0)), Ok(first), &mut steps)?;
    let second = b"00 1 0 0 0 3\n10 -1 0 0 0 3\n01 -1 0 0 0 3\n11 -1 0 0 0 3\n";
    check(rt, alloc, &TWO, (1, 0, Some(1)), Ok(second), &mut steps)?;
    let whole = b"00 1 0 0 0 1\n10 0 0 0 0 0\n01 0 0 0 0 0\n11 -1 0 0 0 1\n";
    check(rt, alloc, &TWO, (1, 1, None), Ok(whole), &mut steps)?;
    let mut long = Vec::new(alloc);
    for time in 0..184 {
        long.push((time, Kind::H, 0, 0))?;
    }
    check(rt, alloc, &long, (0, 0, None), Err(0), &mut steps)
}

#[test]
fn answers_the_asked_lines(rt: HostRuntime) -> Result<(), Fail> {
    run_all::<Brand>(&rt, rt.alloc(), Blank::new(1))
}
