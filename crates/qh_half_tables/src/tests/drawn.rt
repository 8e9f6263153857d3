//! Drawn circuits: each number of a half equals that of the wide kernel, which keeps no factor and knows no lanes.
ghost use Rattle.std.specs.Prelude.{◌≡◌, ◌≤◌, ◌<◌, ◌^◌, ◌↔◌, All, IsTrue, length};
ghost use Rattle.qh_limits.specs.Limits.{coefficient_bits};
ghost use Rattle.qh_ring.specs.Numbers.{IsWithin};
ghost use Rattle.qh_kernel.specs.Rows.{are_single};

use qh_half::{Half, Over, Steps};
use qh_limits::COEFFICIENT_BITS;
use qh_ring::{Entry, Mat2, Mat4, Omega, within};
use std::alloc::Global;
use std::marker::Brand;
use std::process::Abort;
use std::sync::ledger::{Blank, Ledger};
use std::test::Fail;

const O: Entry = Entry::Zero;

const P0: Entry = Entry::Unit(0);

const P1: Entry = Entry::Unit(1);

const P2: Entry = Entry::Unit(2);

const P4: Entry = Entry::Unit(4);

const P5: Entry = Entry::Unit(5);

const P6: Entry = Entry::Unit(6);

const P7: Entry = Entry::Unit(7);

fn cnot() -> Mat4
    ensures { IsTrue (are_single result.rows) }
{
    Mat4 {
        rows: [[P0, O, O, O], [O, P0, O, O], [O, O, O, P0], [O, O, P0, O]],
    }
}

/// The matrices of the gates on one qubit, those whose rows have two entries first, and one that is no gate: its numbers
/// have no factor in common.
fn matrix1(kind: u32) -> Mat2 {
    let rows = match kind % 10 {
        0 => [[P0, P0], [P0, P4]],
        1 => [[P1, P7], [P7, P1]],
        2 => [[P1, P5], [P1, P1]],
        3 => [[P1, P6], [P0, P1]],
        4 => [[P0, O], [O, P1]],
        5 => [[P0, O], [O, P2]],
        6 => [[O, P0], [P0, O]],
        7 => [[O, P6], [P2, O]],
        8 => [[P0, P0], [O, P0]],
        _ => [[P0, O], [O, P4]],
    };
    Mat2 { rows }
}

/// The next number that is drawn.
fn draw(state: &mut u64) -> u32 {
    *state = state
        .wrapping_mul(6364136223846793005)
        .wrapping_add(1442695040888963407);
    (*state >> 33) as u32
}

fn all_within(v: &[Omega]) -> bool
    ensures { IsTrue result ↔ All (IsWithin coefficient_bits) v.now }
{
    v.iter().all(|z| within(z, COEFFICIENT_BITS))
}

/// Whether there are 2^qubits numbers, of at most 5 qubits.
fn is_state(v: &[Omega], qubits: u32) -> bool
    ensures { IsTrue result → (qubits ≤ 5) × (length v.now ≡ 2 ^ qubits) }
{
    if qubits > 5 {
        return false;
    }
    v.len() == 1usize << qubits
}

/// The matrix on both. They answer the same.
fn turn1<L: Ledger>(
    rt: &impl Abort,
    half: &mut Half,
    v: &mut [Omega],
    m: &Mat2,
    q: u32,
    steps: &mut Steps<L>,
) -> Result<(), Over> {
    let qubits = half.qubits();
    assert!(rt; is_state(v, qubits) && q < qubits);
    assert!(rt; all_within(v));
    let answer = qh_kernel::apply1(v, qubits, m, q);
    assert_eq!(rt; half.apply1(m, q, steps), answer);
    answer
}

/// A permutation of two qubits on both.
fn turn2<L: Ledger>(
    rt: &impl Abort,
    half: &mut Half,
    v: &mut [Omega],
    q0: u32,
    q1: u32,
    steps: &mut Steps<L>,
) {
    let qubits = half.qubits();
    assert!(rt; is_state(v, qubits) && q0 < qubits && q1 < qubits && q0 != q1);
    assert!(rt; all_within(v));
    qh_kernel::apply2(v, qubits, &cnot(), q0, q1);
    assert_eq!(rt; half.apply2(&cnot(), q0, q1, steps), Ok(()));
}

fn equals(rt: &impl Abort, half: &Half, v: &[Omega]) -> bool {
    let qubits = half.qubits();
    assert!(rt; is_state(v, qubits) && !half.is_over());
    for x in 0..v.len() {
        if half.at(x as u32) != v[x] {
            return false;
        }
    }
    true
}

/// Goes on with a copy, which has had numbers of other widths and other factors.
fn exchange(rt: &impl Abort, half: &mut Half, other: &mut Half) {
    let qubits = half.qubits();
    let others = other.qubits();
    assert!(rt; qubits == others);
    other.copy_from(half);
    half.copy_from(other);
}

/// A drawn gate on both.
fn turn<L: Ledger>(
    rt: &impl Abort,
    half: &mut Half,
    v: &mut [Omega],
    state: &mut u64,
    steps: &mut Steps<L>,
) -> Result<(), Over> {
    let qubits = half.qubits();
    assert!(rt; 2 <= qubits);
    let q0 = draw(state) % qubits;
    let q1 = draw(state) % qubits;
    if draw(state) % 4 == 0 && q0 != q1 {
        turn2(rt, half, v, q0, q1, steps);
        return Ok(());
    }
    let m = matrix1(draw(state));
    turn1(rt, half, v, &m, q0, steps)
}

/// Drawn gates until a number no longer fits.
fn turn_all<L: Ledger>(
    rt: &impl Abort,
    half: &mut Half,
    other: &mut Half,
    v: &mut [Omega],
    seed: u64,
    steps: &mut Steps<L>,
) {
    let mut state = seed;
    for gate in 0..2000u32 {
        assert!(rt; equals(rt, half, v), "gate {gate} of {seed}");
        if turn(rt, half, v, &mut state, steps).is_err() {
            return;
        }
        if gate % 5 == 0 {
            exchange(rt, half, other);
        }
    }
    assert!(rt; false, "{seed} always fits");
}

fn run_drawn<L: Ledger>(
    rt: &impl Abort,
    alloc: Global,
    qubits: u32,
    seed: u64,
    steps: &mut Steps<L>,
) -> Result<(), Fail> {
    assert!(rt; 2 <= qubits && qubits <= 5);
    let mut half = Half::ground(alloc, qubits)?;
    let mut other = Half::ground(alloc, qubits)?;
    let mut v = vec![in alloc; Omega::ZERO; 1usize << qubits]?;
    assert!(rt; v.len() > 0);
    v[0] = Omega::ONE;
    turn_all(rt, &mut half, &mut other, &mut v, seed, steps);
    Ok(())
}

fn run_all<L: Ledger>(rt: &impl Abort, alloc: Global, blank: Blank) -> Result<(), Fail>
    requires name { blank.name ≡ L.name }
    requires parts { blank.parts ≡ L.parts }
    requires some { 0 < blank.parts }
{
    let mut steps = Steps::<L>::new(blank);
    for case in 0..12u32 {
        run_drawn(rt, alloc, 2 + case % 4, case as u64, &mut steps)?;
    }
    Ok(())
}

#[test]
fn drawn_circuits(rt: HostRuntime) -> Result<(), Fail> {
    run_all::<Brand>(&rt, rt.alloc(), Blank::new(1))
}
