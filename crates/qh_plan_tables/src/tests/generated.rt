//! What no clause can say: that the definition means what a person reads, and that a circuit is made with memory at hand.
use qh_gates::{Circuit, Gate, Kind};
use qh_gen::generate;
use qh_limits::{MAX_LAYERS, MAX_QUBITS};
use std::alloc::AllocError;
use std::process::Abort;
use std::test::Fail;

/// How many of the gates are of this kind.
fn count(circuit: &Circuit, kind: Kind) -> usize {
    circuit
        .gates()
        .iter()
        .filter(|gate| gate.kind == kind)
        .count()
}

/// How many pairs have a qubit below `qubit` and one from there on, at this time.
fn crossing(circuit: &Circuit, qubit: u32, time: u32) -> usize {
    circuit
        .gates()
        .iter()
        .filter(|gate| gate.time == time && gate.q0 < qubit && qubit <= gate.q1)
        .count()
}

#[test]
fn the_grid_of_4_by_4_has_its_counts(rt: HostRuntime) -> Result<(), Fail> {
    let circuit = generate(rt.alloc(), 1, 4, 4, 10)?;
    assert_eq!(rt; circuit.qubits(), 16);
    assert_eq!(rt; circuit.gates().len(), 128);
    for (kind, wanted) in [
        (Kind::H, 32),
        (Kind::Cz, 64),
        (Kind::T, 13),
        (Kind::X12, 10),
        (Kind::Y12, 9),
    ] {
        assert_eq!(rt; count(&circuit, kind), wanted, "{kind:?}");
    }
    for time in 0..12 {
        let pairs = if time == 4 || time == 8 { 4 } else { 0 };
        assert_eq!(rt; crossing(&circuit, 8, time), pairs, "{time}");
    }
    Ok(())
}

#[test]
fn circuits_are_those_of_the_rule(rt: HostRuntime) -> Result<(), Fail> {
    for (start, rows, cols, depth, wanted) in [
        (
            1,
            1,
            2,
            1,
            [
                (0, Kind::H, 0, 0),
                (0, Kind::H, 1, 1),
                (1, Kind::Cz, 0, 1),
                (2, Kind::H, 0, 0),
                (2, Kind::H, 1, 1),
            ]
            .as_slice(),
        ),
        (
            9,
            1,
            1,
            0,
            [(0, Kind::H, 0, 0), (1, Kind::H, 0, 0)].as_slice(),
        ),
        (
            1,
            1,
            1,
            8,
            [
                (0, Kind::H, 0, 0),
                (1, Kind::Y12, 0, 0),
                (2, Kind::T, 0, 0),
                (3, Kind::T, 0, 0),
                (4, Kind::T, 0, 0),
                (5, Kind::T, 0, 0),
                (6, Kind::Y12, 0, 0),
                (7, Kind::Y12, 0, 0),
                (8, Kind::X12, 0, 0),
                (9, Kind::H, 0, 0),
            ]
            .as_slice(),
        ),
        (
            12345678901234567890,
            2,
            3,
            4,
            [
                (0, Kind::H, 0, 0),
                (0, Kind::H, 1, 1),
                (0, Kind::H, 2, 2),
                (0, Kind::H, 3, 3),
                (0, Kind::H, 4, 4),
                (0, Kind::H, 5, 5),
                (1, Kind::Cz, 0, 1),
                (1, Kind::Cz, 3, 4),
                (1, Kind::X12, 2, 2),
                (1, Kind::T, 5, 5),
                (2, Kind::Cz, 0, 3),
                (2, Kind::Cz, 1, 4),
                (2, Kind::Cz, 2, 5),
                (3, Kind::Cz, 1, 2),
                (3, Kind::Cz, 4, 5),
                (3, Kind::Y12, 0, 0),
                (3, Kind::T, 3, 3),
                (4, Kind::X12, 0, 0),
                (4, Kind::X12, 1, 1),
                (4, Kind::Y12, 2, 2),
                (4, Kind::Y12, 3, 3),
                (4, Kind::Y12, 4, 4),
                (4, Kind::Y12, 5, 5),
                (5, Kind::H, 0, 0),
                (5, Kind::H, 1, 1),
                (5, Kind::H, 2, 2),
                (5, Kind::H, 3, 3),
                (5, Kind::H, 4, 4),
                (5, Kind::H, 5, 5),
            ]
            .as_slice(),
        ),
    ] {
        let circuit = make(&rt, start, rows, cols, depth)?;
        assert_eq!(rt; circuit.gates().len(), wanted.len(), "{start}");
        for (gate, (time, kind, q0, q1)) in circuit.gates().iter().zip(wanted) {
            let gate_wanted = Gate {
                time: *time,
                kind: *kind,
                q0: *q0,
                q1: *q1,
            };
            assert_eq!(rt; *gate, gate_wanted, "{start}");
        }
    }
    Ok(())
}

#[test]
fn large_grids_have_their_sizes(rt: HostRuntime) -> Result<(), Fail> {
    for (rows, cols, depth, gates) in [
        (5, 8, 100, 2405),
        (1, 40, 100, 3105),
        (40, 1, 100, 3105),
        (1, 1, 100, 102),
    ] {
        let circuit = make(&rt, 3, rows, cols, depth)?;
        assert_eq!(rt; circuit.gates().len(), gates, "{rows} by {cols}");
    }
    let small = generate(rt.alloc(), 1, 1, 2, 1)?;
    assert_eq!(rt; small.weight(), 4);
    Ok(())
}

/// The generated circuit, of a grid that is one.
fn make(
    rt: &(impl Abort + AllocGlobal),
    start: u64,
    rows: u32,
    cols: u32,
    depth: u32,
) -> Result<Circuit, AllocError> {
    assert!(rt; 1 <= rows && rows <= MAX_QUBITS);
    assert!(rt; 1 <= cols && cols <= MAX_QUBITS);
    assert!(rt; rows * cols <= MAX_QUBITS);
    assert!(rt; depth <= MAX_LAYERS);
    generate(rt.alloc(), start, rows, cols, depth)
}
