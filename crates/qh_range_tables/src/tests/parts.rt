//! A circuit of three qubits, cut into qubits 0 and 2 and qubit 1: its gates and indices in both parts.
ghost use Rattle.std.specs.Prelude.{◌≡◌, ◌<◌, ◌≤◌, IsTrue};
ghost use Rattle.qh_plan.specs.Plans.{AreBits};

use qh_gates::{Circuit, Gate, Kind, arity};
use qh_plan::{Job, plan};
use qh_prefix::{Part, Placed, local_indices, part_width, place_gates};
use std::alloc::{AllocError, Global};
use std::process::Abort;
use std::test::Fail;

/// A time, a kind and two qubits.
type Row = (u32, Kind, u32, u32);

const GATES: [Row; 4] = [
    (0, Kind::X, 0, 0),
    (1, Kind::Cnot, 0, 2),
    (2, Kind::H, 1, 1),
    (3, Kind::Cnot, 1, 2),
];

const FIRST: [Placed; 3] = [
    Placed::OnOne {
        kind: Kind::X,
        qubit: 0,
    },
    Placed::OnTwo {
        kind: Kind::Cnot,
        first: 0,
        second: 1,
    },
    Placed::SecondHere {
        kind: Kind::Cnot,
        qubit: 1,
    },
];

const SECOND: [Placed; 2] = [
    Placed::OnOne {
        kind: Kind::H,
        qubit: 0,
    },
    Placed::FirstHere {
        kind: Kind::Cnot,
        qubit: 0,
    },
];

fn circuit_of(rt: &impl Abort, alloc: Global) -> Result<Circuit, AllocError> {
    let mut circuit = Circuit::start(alloc, 3);
    for (time, kind, q0, q1) in &GATES {
        let next = Gate {
            time: *time,
            kind: *kind,
            q0: *q0,
            q1: *q1,
        };
        assert!(rt; arity(next.kind) == 2 || next.q0 == next.q1);
        assert!(rt; circuit.check(&next).is_ok());
        circuit.push(next)?;
    }
    Ok(circuit)
}

/// Whether these may be asked.
fn are_bits(qubits: u32, bits: &[u64]) -> bool
    requires { qubits ≤ 40 }
    ensures { IsTrue result → AreBits qubits bits.now }
{
    1 <= bits.len() && bits.len() <= 4096 && bits.iter().all(|b| *b < 1 << qubits)
}

fn job_of(rt: &impl Abort, alloc: Global) -> Result<Job, Fail> {
    let circuit = circuit_of(rt, alloc)?;
    let bits = Vec::from_array(alloc, [0, 1, 2, 3, 5, 7])?;
    assert!(rt; are_bits(circuit.qubits(), &bits));
    Ok(plan(alloc, circuit, &[2, 0], 0, 0, None, bits)?)
}

#[test]
fn places_gates_and_indices(rt: HostRuntime) -> Result<(), Fail> {
    let alloc = rt.alloc();
    let job = job_of(&rt, alloc)?;
    for (part, width, gates, indices) in [
        (Part::One, 2, FIRST.as_slice(), [0, 1, 0, 1, 3, 3]),
        (Part::Two, 1, SECOND.as_slice(), [0, 0, 1, 1, 0, 1]),
    ] {
        assert_eq!(rt; part_width(&job, part), width);
        assert_eq!(rt; place_gates(alloc, &job, part)?.as_slice(), gates);
        assert_eq!(rt;
            local_indices(alloc, &job, part)?.as_slice(),
            indices.as_slice()
        );
    }
    Ok(())
}
