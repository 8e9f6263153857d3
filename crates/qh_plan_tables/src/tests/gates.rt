//! The table against what is known of the gates, and each fault of a gate.
use qh_gates::{
    Circuit, Gate, GateFault, Kind, arity, kind_of, matrix1, matrix2, name_of, scaled, terms,
};
use qh_limits::COEFFICIENT_BITS;
use qh_ring::{Entry, Omega, add_bounded, times_unit, within};
use std::alloc::Global;
use std::process::Abort;
use std::test::Fail;

const KINDS: [(&[u8], Kind, u32, u32); 15] = [
    (b"h", Kind::H, 1, 1),
    (b"t", Kind::T, 1, 0),
    (b"x", Kind::X, 1, 0),
    (b"y", Kind::Y, 1, 0),
    (b"z", Kind::Z, 1, 0),
    (b"x_1_2", Kind::X12, 1, 1),
    (b"y_1_2", Kind::Y12, 1, 1),
    (b"hz_1_2", Kind::Hz12, 1, 1),
    (b"cz", Kind::Cz, 2, 0),
    (b"cnot", Kind::Cnot, 2, 0),
    (b"is", Kind::Is, 2, 0),
    (b"s", Kind::S, 1, 0),
    (b"sw", Kind::Sw, 2, 0),
    (b"id1", Kind::Id1, 1, 0),
    (b"id2", Kind::Id2, 2, 0),
];

#[test]
fn names(rt: HostRuntime) -> Result<(), Fail> {
    for (name, kind, qubits, weight) in KINDS {
        assert_eq!(rt; kind_of(name), Some(kind), "{kind:?}");
        assert_eq!(rt; name_of(kind).as_bytes(), name);
        assert_eq!(rt; arity(kind), qubits, "{kind:?}");
        assert_eq!(rt; scaled(kind), weight, "{kind:?}");
    }
    let others: [&[u8]; 7] = [b"", b"H", b"h ", b"rx", b"cz\n", b"x_1_2_", b"id3"];
    for name in others {
        assert_eq!(rt; kind_of(name), None, "{name:?}");
    }
    Ok(())
}

/// The square of a one-qubit matrix at a row and a column.
fn squared(rt: &impl Abort, rows: &[[Entry; 2]; 2], row: usize, column: usize) -> Omega {
    let mut total = Omega::ZERO;
    for middle in 0..2 {
        if let (Entry::Unit(j), Entry::Unit(k)) = (
            rows[row % 2][middle],
            rows[middle][column % 2],
        ) {
            assert!(rt; j < 8 && k < 8);
            assert!(rt; within(&total, COEFFICIENT_BITS) && within(&Omega::ONE, COEFFICIENT_BITS));
            total = add_bounded(&total, &times_unit(&Omega::ONE, (j + k) % 8));
        }
    }
    total
}

#[test]
fn square_roots(rt: HostRuntime) -> Result<(), Fail> {
    let w = |a, b, c, d| Omega { a, b, c, d };
    let none = Omega::ZERO;
    // Twice X, twice Y, and the square root of 2 times X + Y.
    for (kind, square) in [
        (Kind::X12, [[none, w(2, 0, 0, 0)], [w(2, 0, 0, 0), none]]),
        (Kind::Y12, [[none, w(0, 0, -2, 0)], [w(0, 0, 2, 0), none]]),
        (Kind::Hz12, [[none, w(0, 0, 0, -2)], [w(0, 2, 0, 0), none]]),
    ] {
        assert!(rt; arity(kind) == 1);
        let rows = matrix1(kind).rows;
        for row in 0..2 {
            for column in 0..2 {
                assert_eq!(rt;
                    squared(&rt, &rows, row, column),
                    square[row][column],
                    "{kind:?} {row} {column}"
                );
            }
        }
    }
    Ok(())
}

#[test]
fn permutations(rt: HostRuntime) -> Result<(), Fail> {
    // Each two-qubit gate sends a basis state to one basis state, times a power of the eighth root of unity.
    for (kind, sent) in [
        (Kind::Cz, [(0, 0), (1, 0), (2, 0), (3, 4)]),
        (Kind::Cnot, [(0, 0), (1, 0), (3, 0), (2, 0)]),
        (Kind::Is, [(0, 0), (2, 2), (1, 2), (3, 0)]),
        (Kind::Sw, [(0, 0), (2, 0), (1, 0), (3, 0)]),
        (Kind::Id2, [(0, 0), (1, 0), (2, 0), (3, 0)]),
    ] {
        assert!(rt; arity(kind) == 2);
        let rows = matrix2(kind).rows;
        for (column, (row, power)) in sent.iter().enumerate() {
            for other in 0..4 {
                let entry = if other == *row {
                    Entry::Unit(*power)
                } else {
                    Entry::Zero
                };
                assert_eq!(rt; rows[other][column % 4], entry, "{kind:?} {other} {column}");
            }
        }
    }
    Ok(())
}

#[test]
fn terms_by_part(rt: HostRuntime) -> Result<(), Fail> {
    let (o, l, i) = (Entry::Zero, Entry::Unit(0), Entry::Unit(2));
    let (project0, project1) = ([[l, o], [o, o]], [[o, o], [o, l]]);
    let identity = [[l, o], [o, l]];
    // The kind, how many terms it has, which of them is meant, and its factors on the first and on the second qubit.
    for (kind, count, number, first, second) in [
        (Kind::Cz, 2, 1, project1, [[l, o], [o, Entry::Unit(4)]]),
        (Kind::Cnot, 2, 0, project0, identity),
        (Kind::Cnot, 2, 1, project1, [[o, l], [l, o]]),
        (Kind::Is, 4, 2, [[o, i], [o, o]], [[o, o], [l, o]]),
        (Kind::Is, 4, 3, [[o, o], [i, o]], [[o, l], [o, o]]),
        (Kind::Sw, 4, 2, [[o, l], [o, o]], [[o, o], [l, o]]),
        (Kind::Id2, 1, 0, identity, identity),
    ] {
        assert!(rt; arity(kind) == 2);
        for swapped in [false, true] {
            let list = terms(kind, swapped);
            assert_eq!(rt; list.len(), count, "{kind:?}");
            assert!(rt; number < list.len());
            let (one, two) = if swapped {
                (second, first)
            } else {
                (first, second)
            };
            assert_eq!(rt; list[number].one.rows, one, "{kind:?} {number} {swapped}");
            assert_eq!(rt; list[number].two.rows, two, "{kind:?} {number} {swapped}");
        }
    }
    Ok(())
}

fn gate(time: u32, kind: Kind, q0: u32, q1: u32) -> Gate {
    Gate { time, kind, q0, q1 }
}

#[test]
fn faults(rt: HostRuntime) -> Result<(), Fail> {
    let alloc: Global = rt.alloc();
    let mut circuit = Circuit::start(alloc, 4);
    for next in [
        gate(3, Kind::H, 0, 0),
        gate(3, Kind::Cz, 2, 1),
        gate(4, Kind::T, 0, 0),
    ] {
        assert!(rt; arity(next.kind) == 2 || next.q0 == next.q1);
        assert!(rt; circuit.check(&next).is_ok());
        circuit.push(next)?;
    }
    assert_eq!(rt; circuit.gates().len(), 3);
    assert_eq!(rt; circuit.weight(), 1);
    for (next, answer) in [
        (gate(4, Kind::H, 1, 1), Ok(())),
        (gate(4, Kind::H, 4, 4), Err(GateFault::BadQubit)),
        (gate(4, Kind::Cz, 1, 4), Err(GateFault::BadQubit)),
        (gate(0, Kind::Cz, 1, 1), Err(GateFault::SameQubit)),
        (gate(3, Kind::H, 3, 3), Err(GateFault::TimeBack)),
        (gate(4, Kind::Cnot, 1, 0), Err(GateFault::Overlap)),
        (gate(5, Kind::Is, 0, 1), Ok(())),
    ] {
        assert!(rt; arity(next.kind) == 2 || next.q0 == next.q1);
        assert_eq!(rt; circuit.check(&next), answer, "{next:?}");
    }
    Ok(())
}

#[test]
fn full(rt: HostRuntime) -> Result<(), Fail> {
    let alloc: Global = rt.alloc();
    let mut circuit = Circuit::start(alloc, 1);
    for time in 0..4096 {
        let next = gate(time, Kind::H, 0, 0);
        assert!(rt; arity(next.kind) == 2 || next.q0 == next.q1);
        assert!(rt; circuit.check(&next).is_ok());
        circuit.push(next)?;
    }
    let next = gate(4096, Kind::H, 0, 0);
    assert!(rt; arity(next.kind) == 2 || next.q0 == next.q1);
    assert_eq!(rt; circuit.check(&next), Err(GateFault::Full));
    assert_eq!(rt; circuit.weight(), 4096);
    Ok(())
}
