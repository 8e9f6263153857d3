//! Vectors that were worked out by hand or by a program of its own, and the first gate that overflows.
use qh_gates::{Circuit, Gate, Kind, arity};
use qh_limits::{MAX_QUBITS, MAX_UNCUT_QUBITS};
use qh_ring::Omega;
use qh_uncut::{UncutFault, evolve, evolve_chunks};
use std::alloc::{AllocError, Global};
use std::process::Abort;
use std::test::Fail;

/// A kind and its qubits.
type Row = (Kind, u32, u32);

/// The circuit of these gates, one at a time.
fn circuit_of(
    rt: &impl Abort,
    alloc: Global,
    qubits: u32,
    rows: &[Row],
) -> Result<Circuit, AllocError> {
    assert!(rt; 1 <= qubits && qubits <= MAX_QUBITS);
    let mut circuit = Circuit::start(alloc, qubits);
    let mut time = 0u32;
    for (kind, q0, q1) in rows {
        let next = Gate {
            time,
            kind: *kind,
            q0: *q0,
            q1: *q1,
        };
        assert!(rt; arity(next.kind) == 2 || next.q0 == next.q1);
        assert!(rt; circuit.check(&next).is_ok());
        circuit.push(next)?;
        time = time.wrapping_add(1);
    }
    Ok(circuit)
}

fn number(a: i128, b: i128, c: i128, d: i128) -> Omega {
    Omega { a, b, c, d }
}

/// Circuits of two qubits and their four numbers, by hand from the table of the gates.
#[test]
fn two_qubits(rt: HostRuntime) -> Result<(), Fail> {
    let (o, l, i, w) = (
        Omega::ZERO,
        Omega::ONE,
        number(0, 0, 1, 0),
        number(0, 1, 0, 0),
    );
    let h0 = (Kind::H, 0, 0);
    let h1 = (Kind::H, 1, 1);
    for (rows, wanted) in [
        ([h0, (Kind::Cnot, 0, 1), (Kind::Id1, 0, 0)], [l, o, o, l]),
        ([h0, (Kind::Cnot, 1, 0), (Kind::Id1, 1, 1)], [l, l, o, o]),
        ([h0, (Kind::Is, 0, 1), (Kind::Id2, 0, 1)], [l, o, i, o]),
        ([h1, (Kind::Is, 0, 1), (Kind::Id2, 1, 0)], [l, i, o, o]),
        ([h0, (Kind::Sw, 0, 1), (Kind::T, 1, 1)], [l, o, w, o]),
        ([h0, h1, (Kind::Cz, 1, 0)], [l, l, l, number(-1, 0, 0, 0)]),
        (
            [h0, (Kind::T, 0, 0), (Kind::Y, 1, 1)],
            [o, o, i, number(0, 0, 0, 1)],
        ),
        (
            [(Kind::X, 1, 1), (Kind::Z, 1, 1), (Kind::S, 1, 1)],
            [o, o, number(0, 0, -1, 0), o],
        ),
    ] {
        let circuit = circuit_of(&rt, rt.alloc(), 2, &rows)?;
        assert!(rt; circuit.qubits() <= MAX_UNCUT_QUBITS);
        let Ok(v) = evolve(rt.alloc(), &circuit) else {
            return Err(Fail::from(AllocError));
        };
        assert_eq!(rt; v.as_slice(), wanted.as_slice(), "{rows:?}");
    }
    Ok(())
}

/// Every kind, on three qubits.
const EVERY_KIND: [Row; 18] = [
    (Kind::H, 0, 0),
    (Kind::T, 0, 0),
    (Kind::H, 1, 1),
    (Kind::Cnot, 0, 2),
    (Kind::X12, 2, 2),
    (Kind::Is, 2, 1),
    (Kind::S, 1, 1),
    (Kind::Hz12, 0, 0),
    (Kind::Cz, 1, 0),
    (Kind::Y12, 1, 1),
    (Kind::Sw, 0, 2),
    (Kind::Y, 2, 2),
    (Kind::H, 2, 2),
    (Kind::Z, 2, 2),
    (Kind::X, 1, 1),
    (Kind::Id1, 0, 0),
    (Kind::Id2, 2, 0),
    (Kind::T, 2, 2),
];

/// The eight numbers are products of whole 8 by 8 matrices, from a program in another language; in the second row the
/// two qubits of each gate are exchanged.
#[test]
fn every_kind(rt: HostRuntime) -> Result<(), Fail> {
    for (exchanged, wanted) in [
        (
            false,
            [
                number(2, 0, 0, -2),
                number(0, -2, 2, 0),
                number(2, 0, 0, 2),
                number(0, 2, 2, 0),
                number(2, -2, 0, 0),
                number(0, 0, -2, -2),
                number(-2, -2, 0, 0),
                number(0, 0, 2, -2),
            ],
        ),
        (
            true,
            [
                number(2, -2, 0, 0),
                number(-2, -2, 0, 0),
                number(0, 0, 2, 2),
                number(0, 0, 2, -2),
                number(0, -2, -2, 0),
                number(0, 2, -2, 0),
                number(-2, 0, 0, -2),
                number(2, 0, 0, -2),
            ],
        ),
    ] {
        let mut rows = EVERY_KIND;
        for row in &mut rows {
            if exchanged {
                *row = (row.0, row.2, row.1);
            }
        }
        let circuit = circuit_of(&rt, rt.alloc(), 3, &rows)?;
        assert!(rt; circuit.qubits() <= MAX_UNCUT_QUBITS);
        let Ok(v) = evolve(rt.alloc(), &circuit) else {
            return Err(Fail::from(AllocError));
        };
        assert_eq!(rt; v.as_slice(), wanted.as_slice(), "exchanged: {exchanged}");
    }
    Ok(())
}

/// Two `h` double the numbers, so 251 leave 2^125 twice, and the next one gives 2^126.
#[test]
fn overflow(rt: HostRuntime) -> Result<(), Fail> {
    let rows = [(Kind::H, 0, 0); 252];
    let fine = circuit_of(&rt, rt.alloc(), 1, &rows[..251])?;
    assert!(rt; fine.qubits() <= MAX_UNCUT_QUBITS);
    let Ok(v) = evolve(rt.alloc(), &fine) else {
        return Err(Fail::from(AllocError));
    };
    let top = number(42535295865117307932921825928971026432, 0, 0, 0);
    let both = [top, top];
    assert_eq!(rt; v.as_slice(), both.as_slice());
    let over = circuit_of(&rt, rt.alloc(), 1, &rows)?;
    assert!(rt; over.qubits() <= MAX_UNCUT_QUBITS);
    let answer = evolve(rt.alloc(), &over);
    assert!(rt; matches!(answer, Err(UncutFault::Over { gate: 251 })));
    Ok(())
}

/// The gates of a chain: `h` on qubit 0, then `cnot` from each qubit to the next.
const CHAIN: [Row; 12] = [
    (Kind::H, 0, 0),
    (Kind::Cnot, 0, 1),
    (Kind::Cnot, 1, 2),
    (Kind::Cnot, 2, 3),
    (Kind::Cnot, 3, 4),
    (Kind::Cnot, 4, 5),
    (Kind::Cnot, 5, 6),
    (Kind::Cnot, 6, 7),
    (Kind::Cnot, 7, 8),
    (Kind::Cnot, 8, 9),
    (Kind::Cnot, 9, 10),
    (Kind::T, 10, 10),
];

/// By several threads: of 16 qubits, 11 are all 0 or all 1, and `t` turns the second.
#[test]
fn chain_by_threads(rt: HostRuntime) -> Result<(), Fail> {
    let circuit = circuit_of(&rt, rt.alloc(), 16, &CHAIN)?;
    assert!(rt; circuit.qubits() <= MAX_UNCUT_QUBITS);
    let Ok(v) = evolve_chunks(&rt, rt.alloc(), &circuit) else {
        return Err(Fail::from(AllocError));
    };
    assert_eq!(rt; v.len(), 65536);
    assert_eq!(rt; v.first(), Some(&Omega::ONE));
    assert_eq!(rt; v.get(2047), Some(&number(0, 1, 0, 0)));
    let others = v.iter().filter(|z| **z != Omega::ZERO).count();
    assert_eq!(rt; others, 2);
    Ok(())
}

/// By several threads a coefficient of 2^126 ends the evolution at the same gate, and few qubits are done by one.
#[test]
fn overflow_by_threads(rt: HostRuntime) -> Result<(), Fail> {
    let rows = [(Kind::H, 0, 0); 252];
    for qubits in [1, 16] {
        let over = circuit_of(&rt, rt.alloc(), qubits, &rows)?;
        assert!(rt; over.qubits() <= MAX_UNCUT_QUBITS);
        let answer = evolve_chunks(&rt, rt.alloc(), &over);
        assert!(rt; matches!(answer, Err(UncutFault::Over { gate: 251 })));
    }
    Ok(())
}

/// `h` and `t` by turns on qubit 0, so often, and then every kind.
fn deep_circuit(rt: &impl Abort, alloc: Global, turns: u32) -> Result<Circuit, AllocError> {
    let mut rows = Vec::new(alloc);
    for _ in 0..turns {
        rows.push((Kind::H, 0u32, 0u32))?;
        rows.push((Kind::T, 0u32, 0u32))?;
    }
    for row in &EVERY_KIND {
        rows.push(*row)?;
    }
    circuit_of(rt, alloc, 16, &rows)
}

/// By another program coefficients come to 2^62 in the 248th turn, all common factors taken out, so that several threads do
/// the last 19 gates; and by it the first number is this one. One thread gives the same numbers.
#[test]
fn wide_by_threads(rt: HostRuntime) -> Result<(), Fail> {
    let circuit = deep_circuit(&rt, rt.alloc(), 248)?;
    assert!(rt; circuit.qubits() <= MAX_UNCUT_QUBITS);
    let Ok(by_one) = evolve(rt.alloc(), &circuit) else {
        return Err(Fail::from(AllocError));
    };
    let Ok(by_several) = evolve_chunks(&rt, rt.alloc(), &circuit) else {
        return Err(Fail::from(AllocError));
    };
    assert_eq!(rt; by_several.as_slice(), by_one.as_slice());
    let first = number(
        -61126144095857992763440490966952181760,
        -30119738979242510726524029380115562496,
        -30071500624463049968475163195971993600,
        25778423816315179154110436074399465472,
    );
    assert_eq!(rt; by_several.first(), Some(&first));
    Ok(())
}

/// By that program the 254th turn overflows, 12 gates after the one that made the numbers wide.
#[test]
fn wide_overflow_by_threads(rt: HostRuntime) -> Result<(), Fail> {
    let circuit = deep_circuit(&rt, rt.alloc(), 254)?;
    assert!(rt; circuit.qubits() <= MAX_UNCUT_QUBITS);
    let by_one = evolve(rt.alloc(), &circuit);
    assert!(rt; matches!(by_one, Err(UncutFault::Over { gate: 506 })));
    let by_several = evolve_chunks(&rt, rt.alloc(), &circuit);
    assert!(rt; matches!(by_several, Err(UncutFault::Over { gate: 506 })));
    Ok(())
}
